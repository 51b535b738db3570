// Files of which some are kept as they were read.
use crate::{Files, Held, ReadFail};
use std::alloc::{AllocError, Global};

/// Other files, of which it keeps what was read under some names. They are seen as those are: a
/// read that there is no memory to keep answers `NoMemory`.
#[derive(Drop)]
pub struct KeptFiles<'a, F: Files + Drop> {
    files: F,
    alloc: Global,
    names: &'a [&'a str],
    kept: Vec<Held>,
}

impl<'a, F: Files + Drop> KeptFiles<'a, F> {
    ghost use Rattle.std.specs.Prelude.{◌≡◌};

    /// These files, of which nothing was kept so far. `alloc` is kept for what is read under the
    /// names.
    pub fn new(alloc: Global, files: F, names: &'a [&'a str]) -> Self
        ensures { ⟦<KeptFiles<'a, F> as Files>⟧.seen result ≡ ⟦<F as Files>⟧.seen files }
    {
        KeptFiles {
            files,
            alloc,
            names,
            kept: Vec::new(alloc),
        }
    }

    /// The other files.
    pub fn files(&self) -> &F
        ensures { ⟦<F as Files>⟧.seen result.now ≡ ⟦<KeptFiles<'a, F> as Files>⟧.seen self.now }
    {
        &self.files
    }

    /// What was kept, in the order of the reads.
    pub fn kept(&self) -> &[Held] {
        &self.kept
    }

    fn is_named(&self, name: &str) -> bool {
        self.names.iter().any(|it| *it == name)
    }
}

// Keeps what a file was read as.
fn keep(alloc: Global, kept: &mut Vec<Held>, name: &str, bytes: &[u8]) -> Result<(), AllocError> {
    let name = String::from_str(alloc, name)?;
    let bytes = bytes.to_vec(alloc)?;
    kept.push(Held { name, bytes })?;
    Ok(())
}

impl<'a, F: Files + Drop> Files for KeptFiles<'a, F> {
    ghost seen = { λ it. ⟦<F as Files>⟧.seen it.files };

    fn read(&mut self, name: &str, limit: u64) -> Result<Vec<u8>, ReadFail> {
        let bytes = match self.files.read(name, limit) {
            Ok(bytes) => bytes,
            Err(fail) => return Err(fail),
        };
        if !self.is_named(name) {
            return Ok(bytes);
        }
        match keep(self.alloc, &mut self.kept, name, &bytes) {
            Ok(()) => Ok(bytes),
            Err(_) => Err(ReadFail::NoMemory),
        }
    }
}
