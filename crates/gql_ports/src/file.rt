//! Text that is read from a file.

ghost use Rattle.std.specs.Prelude.{◌≡◌, None};

use crate::fault::Failed;
use crate::source::Source;
use std::fs;
use std::io::Read;
use std::rt::Files;

/// The text of a file. It tells no content.
#[derive(Drop)]
pub struct FileSource<'a, R: Files> {
    rt: &'a R,
    file: Option<R::File>,
    faults: u64,
}

impl<'a, R: Files> FileSource<'a, R> {
    pub fn new(rt: &'a R) -> FileSource<'a, R>
        ensures { result.faults ≡ 0 }
    {
        FileSource {
            rt,
            file: None,
            faults: 0,
        }
    }
}

impl<'a, R: Files> Source for FileSource<'a, R> {
    ghost told = { λ _. None };

    ghost faults = { λ s. s.faults };

    fn open(&mut self, name: &str) -> Result<(), Failed> {
        match fs::open(self.rt, name) {
            Ok(file) => {
                self.file = Some(file);
                Ok(())
            }
            Err(_) => {
                self.file = None;
                self.faults = self.faults.saturating_add(1);
                Err(Failed)
            }
        }
    }

    fn read(&mut self, into: &mut [u8]) -> Result<usize, Failed> {
        match &mut self.file {
            None => Ok(0),
            Some(file) => match file.read(into) {
                Ok(count) => Ok(count),
                Err(_) => {
                    self.faults = self.faults.saturating_add(1);
                    Err(Failed)
                }
            },
        }
    }
}

#[cfg(test)]
mod tests {
    use super::*;
    use std::test::Fail;

    #[test]
    fn reads_a_file_and_counts_a_missing_one(rt: HostRuntime) -> Result<(), Fail> {
        let name = "gql_ports_file_source.txt";
        fs::write(&rt, name, "MATCH")?;
        let mut source = FileSource::new(&rt);
        let mut into = [0u8; 4];
        assert_eq!(rt; source.read(&mut into), Ok(0));
        source.open(name)?;
        assert_eq!(rt; source.read(&mut into), Ok(4));
        assert_eq!(rt; into, *b"MATC");
        assert_eq!(rt; source.read(&mut into), Ok(1));
        assert_eq!(rt; into[0], b'H');
        assert_eq!(rt; source.read(&mut into), Ok(0));
        fs::remove_file(&rt, name)?;
        assert_eq!(rt; source.open(name), Err(Failed));
        assert_eq!(rt; source.faults, 1);
        assert_eq!(rt; source.read(&mut into), Ok(0));
        Ok(())
    }
}
