// What writing and reading have to do with each other. The function does nothing: its contract is the law, which the check
// proves.
ghost use Rattle.cm_vfscap.specs.Law.{WrittenIsReadBack};

/// The bytes of an attribute, read again, are the attribute.
#[tactic(auto, using(crate::proofs::ReadBack::written_is_read_back))]
pub fn written_is_read_back()
    ensures { WrittenIsReadBack }
{}
