// A sample read and written byte for byte, and what is refused where one piece of it is written in another way. The
// expected values are worked out by hand.
use crate::{BadCert, read_bounds, read_row, row_value, write_bounds};
use serde_json::Value;
use std::alloc::Global;
use std::test::Fail;

// The start bounds of one process in the initial space with all ids 1000, no groups, all five sets empty,
// no_new_privs, and securebits 0.
const SAMPLE: &str = "{\"format\":1,\"rows\":[{\"b\":\"0000000000000000\"\
    ,\"eg\":[[1000,1000]],\"eu\":[[1000,1000]],\"fg\":[[1000,1000]],\"fu\":[[1000,1000]],\
    \"g\":[[1000,1000]],\"i\":\"0000000000000000\"\
    ,\"k\":true,\"mg\":[[0,4294967294]]\
    ,\"mu\":[[0,4294967294]],\"n\":true,\"p\":\"0000000000000000\",\"r\":true\
    ,\"s\":[],\"u\":[[1000,1000]]},{\"b\":\"0000000000000000\"\
    ,\"eg\":[],\"eu\":[],\"fg\":[],\"fu\":[],\"g\":[],\"i\":\"0000000000000000\",\"k\":false,\"mg\":[]\
    ,\"mu\":[],\"n\":true,\"p\":\"0000000000000000\",\"r\":false,\"s\":[],\"u\":[]}]}";

// What is read of a text for so many spaces, written again.
fn again(alloc: Global, text: &[u8], spaces: u8) -> Result<Vec<u8>, BadCert> {
    let b = read_bounds(alloc, text, u32::from(spaces))?;
    Ok(write_bounds(alloc, &b)?)
}

#[test]
fn the_sample_is_read_and_written(rt: HostRuntime) -> Result<(), Fail> {
    let text = again(rt.alloc(), SAMPLE.as_bytes(), 1)?;
    assert!(rt; text.as_slice() == SAMPLE.as_bytes());
    Ok(())
}

#[test]
fn a_row_is_written_and_read(rt: HostRuntime) -> Result<(), Fail> {
    let b = read_bounds(rt.alloc(), SAMPLE.as_bytes(), 1)?;
    let first = &b.rows.items()[0];
    let value = row_value(rt.alloc(), first)?;
    let row = read_row(rt.alloc(), &value, 7)?;
    assert!(rt; row.u.intervals() == first.u.intervals());
    assert!(rt; row.n.0 && row.r.0 && row.k.0);
    assert!(rt;
        matches!(
            read_row(rt.alloc(), &Value::Null, 7),
            Err(BadCert::Shape(Some(7)))
        )
    );
    Ok(())
}

// Other spellings of the sample stand for the same bounds.
#[test]
fn spellings(rt: HostRuntime) -> Result<(), Fail> {
    let cases: [(&str, &str); 7] = [
        ("{\"format\":1,", " {\n\"format\" : 1 ,\t"),
        ("\"b\":\"0", "\"\\u0062\":\"0"),
        (
            "\"p\":\"0000000000000000\",\"r\":true",
            "\"p\":\"\\u0030000000000000000\",\"r\":true",
        ),
        ("\"k\":true,", "\"k\":0,\"k\":true,"),
        (
            "\"n\":true,\"p\":\"0000000000000000\",\"r\":false",
            "\"r\":false,\"p\":\"0000000000000000\",\"n\":true",
        ),
        (
            "{\"format\":1,\"rows\"",
            "{\"rows\":[],\"format\":1,\"rows\"",
        ),
        ("\"u\":[]}]}", "\"u\":[]}]} \n"),
    ];
    for (old, new) in cases {
        let text = SAMPLE.replace(rt.alloc(), old, new)?;
        let text = again(rt.alloc(), text.as_bytes(), 1)?;
        assert!(rt; text.as_slice() == SAMPLE.as_bytes());
    }
    Ok(())
}

#[test]
fn refusals(rt: HostRuntime) -> Result<(), Fail> {
    let cases: [(&str, &str, BadCert); 36] = [
        // no JSON
        ("{\"format\"", "{", BadCert::Json),
        ("\"format\":1,", "\"format\":01,", BadCert::Json),
        ("\"format\":1,", "\"format\":1e999,", BadCert::Json),
        ("\"u\":[]}]}", "\"u\":[]},]}", BadCert::Json),
        ("\"u\":[]}]}", "\"u\":[]}]}]", BadCert::Json),
        // the document
        ("\"format\":1,", "\"format\":1.0,", BadCert::Shape(None)),
        ("\"format\":1,", "\"format\":1e0,", BadCert::Shape(None)),
        ("\"format\":1,", "\"format\":2,", BadCert::Shape(None)),
        (
            "\"format\":1,",
            "\"format\":1,\"format\":2,",
            BadCert::Shape(None),
        ),
        ("\"format\":1,", "", BadCert::Shape(None)),
        (
            "\"format\":1,",
            "\"format\":1,\"more\":1,",
            BadCert::Shape(None),
        ),
        ("\"rows\"", "\"row\"", BadCert::Shape(None)),
        ("\"u\":[]}]}", "\"u\":[]},{}]}", BadCert::Shape(None)),
        // the shape of a row
        (
            "\"u\":[[1000,1000]]}",
            "\"u\":[[1000,1000]],\"v\":1}",
            BadCert::Shape(Some(0)),
        ),
        (",\"u\":[[1000,1000]]}", "}", BadCert::Shape(Some(0))),
        ("\"u\":[]}", "\"U\":[]}", BadCert::Shape(Some(1))),
        ("\"k\":false", "\"k\":0", BadCert::Shape(Some(1))),
        ("\"u\":[]}", "\"u\":{}}", BadCert::Shape(Some(1))),
        (
            "\"u\":[[1000,1000]]",
            "\"u\":[[1000,4294967296]]",
            BadCert::Shape(Some(0)),
        ),
        (
            "\"u\":[[1000,1000]]",
            "\"u\":[[1000,1000,1000]]",
            BadCert::Shape(Some(0)),
        ),
        (
            "\"u\":[[1000,1000]]",
            "\"u\":[[1000]]",
            BadCert::Shape(Some(0)),
        ),
        (
            "\"u\":[[1000,1000]]",
            "\"u\":[1000,1000]",
            BadCert::Shape(Some(0)),
        ),
        (
            "\"u\":[[1000,1000]]",
            "\"u\":[[1000,1000.0]]",
            BadCert::Shape(Some(0)),
        ),
        ("\"u\":[]}", "\"u\":[[-0,0]]}", BadCert::Shape(Some(1))),
        ("\"u\":[]}", "\"u\":[[-1,0]]}", BadCert::Shape(Some(1))),
        (
            "\"p\":\"0000000000000000\",\"r\":false",
            "\"p\":\"0000020000000000\",\"r\":false",
            BadCert::Shape(Some(1)),
        ),
        (
            "\"p\":\"0000000000000000\",\"r\":false",
            "\"p\":\"000000000000000A\",\"r\":false",
            BadCert::Shape(Some(1)),
        ),
        (
            "\"p\":\"0000000000000000\",\"r\":false",
            "\"p\":\"000000000000000g\",\"r\":false",
            BadCert::Shape(Some(1)),
        ),
        (
            "\"p\":\"0000000000000000\",\"r\":false",
            "\"p\":\"000000000000000\",\"r\":false",
            BadCert::Shape(Some(1)),
        ),
        (
            "\"p\":\"0000000000000000\",\"r\":false",
            "\"p\":\"none\",\"r\":false",
            BadCert::Shape(Some(1)),
        ),
        // the order in a row
        (
            "\"u\":[[1000,1000]]",
            "\"u\":[[1000,999]]",
            BadCert::Order(0),
        ),
        (
            "\"u\":[[1000,1000]]",
            "\"u\":[[4294967295,4294967295]]",
            BadCert::Order(0),
        ),
        ("\"u\":[]}", "\"u\":[[1,2],[3,4]]}", BadCert::Order(1)),
        ("\"u\":[]}", "\"u\":[[3,4],[1,1]]}", BadCert::Order(1)),
        // the shape of each row comes before the order of any
        (
            "\"u\":[[1000,1000]]},{",
            "\"u\":[[1000,999]]},{\"v\":1,",
            BadCert::Shape(Some(1)),
        ),
        (
            "\"mg\":[[0,4294967294]]",
            "\"mg\":[[0,4294967295]]",
            BadCert::Order(0),
        ),
    ];
    for (old, new, fault) in cases {
        let text = SAMPLE.replace(rt.alloc(), old, new)?;
        assert!(rt; text.as_bytes() != SAMPLE.as_bytes());
        assert_eq!(rt; again(rt.alloc(), text.as_bytes(), 1).err(), Some(fault));
    }
    Ok(())
}

// Texts that are no piece of the sample: numbers of rows, bytes that are no text, and nesting.
#[test]
fn other_texts(rt: HostRuntime) -> Result<(), Fail> {
    let alloc = rt.alloc();
    assert_eq!(rt;
        again(alloc, SAMPLE.as_bytes(), 2).err(),
        Some(BadCert::Shape(None))
    );
    assert_eq!(rt;
        again(alloc, SAMPLE.as_bytes(), 0).err(),
        Some(BadCert::Shape(None))
    );
    assert_eq!(rt; again(alloc, b"", 1).err(), Some(BadCert::Json));
    assert_eq!(rt;
        again(alloc, b"\xef\xbb\xbf{}", 1).err(),
        Some(BadCert::Json)
    );
    assert_eq!(rt; again(alloc, b"\"\xff\"", 1).err(), Some(BadCert::Json));
    let none = br#"{"format":1,"rows":[]}"#.as_slice();
    assert!(rt; again(alloc, none, 0)?.as_slice() == none);
    assert_eq!(rt;
        again(alloc, &nested(alloc, 127)?, 0).err(),
        Some(BadCert::Shape(None))
    );
    assert_eq!(rt;
        again(alloc, &nested(alloc, 128)?, 0).err(),
        Some(BadCert::Json)
    );
    Ok(())
}

// So many arrays in each other.
fn nested(alloc: Global, count: usize) -> Result<Vec<u8>, Fail> {
    let mut text = Vec::new(alloc);
    for _ in 0..count {
        text.push(b'[')?;
    }
    for _ in 0..count {
        text.push(b']')?;
    }
    Ok(text)
}
