//! A file that is read once more.
use std::alloc::AllocError;
use std::fs;
use std::io::ErrorKind;

/// What stands under a name.
#[derive(Drop)]
pub enum Found {
    Bytes(Vec<u8>),
    Nothing,
    Folder,
    /// It can't be read again, or not at all.
    Unread,
}

/// Reads a file once more, if it is a plain one: what a pipe brings can be read once only.
pub fn read_again<R: std::fs::Files + AllocGlobal>(
    rt: &R,
    prefix: &str,
    name: &str,
) -> Result<Found, AllocError> {
    let path = format!(in rt.alloc(); "{prefix}{name}")?;
    match fs::metadata(rt, path.as_str()) {
        Ok(data) if data.is_dir() => return Ok(Found::Folder),
        Ok(data) if data.is_file() => {}
        Err(e) if e.kind() == ErrorKind::NotFound => return Ok(Found::Nothing),
        _ => return Ok(Found::Unread),
    }
    match fs::read(rt, path.as_str()) {
        Ok(bytes) => Ok(Found::Bytes(bytes)),
        Err(e) if e.kind() == ErrorKind::OutOfMemory => Err(AllocError),
        Err(_) => Ok(Found::Unread),
    }
}
