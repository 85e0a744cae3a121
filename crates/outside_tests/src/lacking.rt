//! A disk that fills up, or on which a program was killed before it ended.
use std::alloc::{Allocator, Global};
use std::fs::{File, Metadata, OpenFile, OpenOptions, Permissions};
use std::io;
use std::io::{Error, ErrorKind, Read, Seek, SeekFrom, Write};
use std::rt::Files;

/// What a disk does not do.
#[derive(Clone, Copy, Debug, PartialEq, Eq)]
pub enum Lacks {
    /// It is full: each file takes this many bytes.
    Room(usize),
    /// No file is renamed or removed, as if the program had been killed before.
    Time,
}

/// The files of `rt`, except for what the disk lacks.
#[derive(Drop)]
pub struct LackingDisk<'a> {
    rt: &'a HostRuntime,
    lacks: Lacks,
}

impl<'a> LackingDisk<'a> {
    /// The files of `rt` with this lack.
    pub fn new(rt: &'a HostRuntime, lacks: Lacks) -> Self {
        LackingDisk { rt, lacks }
    }
}

/// A file of such a disk.
#[derive(Drop)]
pub struct LackingFile {
    file: File,
    room: usize,
}

impl Read for LackingFile {
    fn read(&mut self, buf: &mut [u8]) -> io::Result<usize> {
        self.file.read(buf)
    }
}

impl Write for LackingFile {
    fn write(&mut self, buf: &[u8]) -> io::Result<usize> {
        let count = self.room.min(buf.len());
        if count == 0 {
            return Err(Error::from(ErrorKind::StorageFull));
        }
        let taken = self.file.write(&buf[..count])?;
        self.room -= taken;
        Ok(taken)
    }

    fn flush(&mut self) -> io::Result<()> {
        self.file.flush()
    }
}

impl Seek for LackingFile {
    fn seek(&mut self, to: SeekFrom) -> io::Result<u64> {
        self.file.seek(to)
    }
}

impl OpenFile for LackingFile {
    fn metadata(&self) -> io::Result<Metadata> {
        self.file.metadata()
    }

    fn set_len(&self, size: u64) -> io::Result<()> {
        self.file.set_len(size)
    }

    fn sync_all(&self) -> io::Result<()> {
        self.file.sync_all()
    }

    fn sync_data(&self) -> io::Result<()> {
        self.file.sync_data()
    }

    fn set_permissions(&self, perm: Permissions) -> io::Result<()> {
        self.file.set_permissions(perm)
    }
}

impl<'a> Files for LackingDisk<'a> {
    type File = LackingFile;

    type Dir = <HostRuntime as Files>::Dir;

    fn open_file(&self, how: &OpenOptions, path: &str) -> io::Result<LackingFile> {
        let room = match self.lacks {
            Lacks::Room(room) => room,
            Lacks::Time => usize::MAX,
        };
        Ok(LackingFile {
            file: self.rt.open_file(how, path)?,
            room,
        })
    }

    fn open_dir(&self, path: &str) -> io::Result<<HostRuntime as Files>::Dir> {
        self.rt.open_dir(path)
    }

    fn metadata(&self, path: &str) -> io::Result<Metadata> {
        self.rt.metadata(path)
    }

    fn symlink_metadata(&self, path: &str) -> io::Result<Metadata> {
        self.rt.symlink_metadata(path)
    }

    fn copy(&self, from: &str, to: &str) -> io::Result<u64> {
        self.rt.copy(from, to)
    }

    fn rename(&self, from: &str, to: &str) -> io::Result<()> {
        if self.lacks == Lacks::Time {
            return Err(Error::from(ErrorKind::Other));
        }
        self.rt.rename(from, to)
    }

    fn remove_file(&self, path: &str) -> io::Result<()> {
        if self.lacks == Lacks::Time {
            return Err(Error::from(ErrorKind::Other));
        }
        self.rt.remove_file(path)
    }

    fn create_dir(&self, path: &str) -> io::Result<()> {
        self.rt.create_dir(path)
    }

    fn remove_dir(&self, path: &str) -> io::Result<()> {
        self.rt.remove_dir(path)
    }

    fn remove_dir_all<B: Allocator>(&self, alloc: B, path: &str) -> io::Result<()> {
        self.rt.remove_dir_all(alloc, path)
    }
}

impl<'a> Alloc for LackingDisk<'a> {
    type A = Global;

    fn alloc(&self) -> Global {
        self.rt.alloc()
    }
}
