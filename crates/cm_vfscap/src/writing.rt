// An attribute as bytes, of version 3 (capabilities(7), "File capability extended attribute versioning").
ghost use Rattle.std.specs.Prelude.{◌≡◌};
ghost use Rattle.model_cred.specs.Attribute.{attribute_bytes, first_word as first_of, low_word as low_of, high_word as high_of};

use crate::FileCaps;
use crate::layout::{EFFECTIVE, VERSION_3};
use cm_base::CapWord;

/// The bytes of the attribute, of version 3. Read again, they are the attribute (`written_is_read_back`).
pub fn write(caps: &FileCaps) -> [u8; 24]
    ensures { result ≡ attribute_bytes caps.now }
{
    let [f0, f1, f2, f3] = first_word(caps.effective).to_le_bytes();
    let [p0, p1, p2, p3] = low_word(caps.permitted).to_le_bytes();
    let [i0, i1, i2, i3] = low_word(caps.inheritable).to_le_bytes();
    let [p4, p5, p6, p7] = high_word(caps.permitted).to_le_bytes();
    let [i4, i5, i6, i7] = high_word(caps.inheritable).to_le_bytes();
    let [r0, r1, r2, r3] = caps.root.to_le_bytes();
    [
        f0, f1, f2, f3, p0, p1, p2, p3, i0, i1, i2, i3, //
        p4, p5, p6, p7, i4, i5, i6, i7, r0, r1, r2, r3,
    ]
}

// The word of version 3, with the effective bit.
fn first_word(effective: bool) -> u32
    ensures { result ≡ first_of effective }
{
    if effective {
        VERSION_3 + EFFECTIVE
    } else {
        VERSION_3
    }
}

// The word of capabilities 0 to 31.
fn low_word(set: CapWord) -> u32
    ensures { result ≡ low_of set }
{
    (set.bits() & 0xffff_ffff) as u32
}

// The word of capabilities 32 to 40.
fn high_word(set: CapWord) -> u32
    ensures { result ≡ high_of set }
{
    (set.bits() >> 32) as u32
}
