// Names of files, in a list.
ghost use Rattle.std.specs.Prelude.{◌≡◌};
ghost use Rattle.cm_io.specs.Names.{are_distinct};

/// Whether no name stands twice in the list.
pub fn are_distinct(names: &[String]) -> bool
    ensures { result ≡ are_distinct names.now }
{
    let mut rest = names;
    while let [first, others @ ..] = rest {
        if others.contains(first) {
            return false;
        }
        rest = others;
    }
    true
}
