// The attribute security.capability of a file (capabilities(7)), by its bytes.
use case_lines::Stop;
use cm_vfscap::{FileCaps, read, write};
use hex::{FromHexError, decode, encode};
use std::alloc::Global;

// What the bytes that hexadecimal digits spell are: an attribute and its bytes in version 3, or why they are none.
pub(crate) fn attribute(alloc: Global, digits: &str) -> Result<String, Stop> {
    let bytes = bytes_of(alloc, digits)?;
    match read(&bytes) {
        Ok(caps) => shown(alloc, &caps),
        Err(why) => Ok(format!(in alloc; "{why:?}")?),
    }
}

fn bytes_of(alloc: Global, digits: &str) -> Result<Vec<u8>, Stop> {
    match decode(alloc, digits) {
        Ok(bytes) => Ok(bytes),
        Err(FromHexError::OutOfMemory) => Err(Stop::NoMemory),
        Err(_) => Err(Stop::Bad),
    }
}

fn shown(alloc: Global, caps: &FileCaps) -> Result<String, Stop> {
    let written = encode(alloc, write(caps))?;
    Ok(format!(in alloc;
        "prm={:x} inh={:x} effective={} root={}, written {written}",
        caps.permitted.bits(),
        caps.inheritable.bits(),
        caps.effective,
        caps.root
    )?)
}
