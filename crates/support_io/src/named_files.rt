//! Named files in memory.

ghost use Rattle.std.specs.Prelude.{◌≡◌, ◌+◌, ◌<◌, ◌≤◌, ◌++◌, [], Some, None, length, take, drop, min, is_some, position, unwrap_or, vec_len, IsSome, IsTrue};
ghost use Rattle.std.specs.Option.{ForSome};
ghost use Rattle.support_io.specs.FileList.{first_file, file_at, has_name};

// The index of the first file of a name.
fn place_of(files: &[(String, Vec<u8>)], name: &str) -> Option<usize>
    ensures { result ≡ position (has_name name.now) files.now }
{
    files.iter().position(|file| file.0.as_str() == name)
}

/// Files with their names, of which one may be open. Of the files of one name the first counts.
#[derive(Drop)]
pub struct NamedFiles {
    files: Vec<(String, Vec<u8>)>,
    /// The index of the open file.
    opened: Option<usize>,
    /// The offset of the open file's first byte that is not read yet.
    from: usize,
    ghost in_range: { ForSome opened (λ at. at < vec_len files) },
    ghost within: { from ≤ length (unwrap_or (file_at files.items opened) []) },
}

impl NamedFiles {
    ghost use Rattle.support_io.specs.NamedFiles.{held_in, name_in, open_in};

    /// These files, none of them open.
    pub fn new(files: Vec<(String, Vec<u8>)>) -> Self
        ensures held { held_in result ≡ first_file files.items }
        ensures closed { open_in result ≡ None }
    {
        NamedFiles {
            files,
            opened: None,
            from: 0,
        }
    }

    /// Opens a file at its first byte, and answers whether there is one of this name.
    pub fn open(&mut self, name: &str) -> bool
        ensures held { held_in self.new ≡ held_in self.old }
        ensures opened { open_in self.new ≡ held_in self.old name.now }
        ensures found { result ≡ is_some (held_in self.old name.now) }
        ensures named { IsTrue result → name_in self.new ≡ name.now }
    {
        self.opened = place_of(self.files.as_slice(), name);
        self.from = 0;
        self.opened.is_some()
    }

    /// Closes the file that is open.
    pub fn close(&mut self)
        ensures held { held_in self.new ≡ held_in self.old }
        ensures closed { open_in self.new ≡ None }
    {
        self.opened = None;
        self.from = 0;
    }

    /// Reads as much as there is into the front of `buf`, and answers how many bytes.
    pub fn read(&mut self, buf: &mut [u8]) -> usize
        requires { IsSome (open_in self.old) }

        ensures held { held_in self.new ≡ held_in self.old }
        ensures still_open { IsSome (open_in self.new) }
        ensures named { name_in self.new ≡ name_in self.old }
        ensures count { result ≡ min (length buf.old) (length (unwrap_or (open_in self.old) [])) }
        ensures taken { unwrap_or (open_in self.old) [] ≡ take result buf.new ++ unwrap_or (open_in self.new) [] }
    {
        let Some(at) = self.opened else {
            unreachable!()
        };
        let rest = &self.files[at].1[self.from..];
        let count = rest.len().min(buf.len());
        buf[..count].copy_from_slice(&rest[..count]);
        self.from += count;
        count
    }
}
