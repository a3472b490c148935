// Opens regular files alone. To open a pipe waits for its other end, so what a name stands for is looked at before it is opened.
use std::fs::File;
use std::rt::Files;
use std::{fs, str};

// Opens a regular file, or a link to one, for reading, and answers it, or none. What takes the file's place between the look and the
// opening is opened as it is: that no pipe does is not promised.
pub(crate) fn open_regular<R: Files>(files: &R, name: &[u8]) -> Option<R::File> {
    let path = str::from_utf8(name).ok()?;
    // At a link, what it leads to is looked at.
    if fs::metadata(files, path).ok()?.is_file() {
        File::open(files, path).ok()
    } else {
        None
    }
}
