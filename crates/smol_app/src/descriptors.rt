//! The descriptors 0 to 2.
use std::fs::File;
use std::os::fd::AsRawFd;
use std::rt::Files;
use std::{fs, io};

/// Takes those of the descriptors 0 to 2 that are closed, and holds them as long as the answer lives. The system gives
/// a file the lowest descriptor that is free, so without this a file that is opened later would be standard output or
/// standard error. They are held by a folder that is open to be read: who writes there is told that it can't be
/// written, as where the descriptor is closed.
pub fn hold_closed<R: Files<File = File>>(rt: &R) -> io::Result<[Option<File>; 3]> {
    let mut held = [None, None, None];
    for place in held.iter_mut() {
        let file = fs::open(rt, "/")?;
        if file.as_raw_fd() > 2 {
            break;
        }
        *place = Some(file);
    }
    Ok(held)
}
