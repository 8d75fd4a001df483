//! The segments of a file.

ghost use Rattle.std.specs.Prelude.{◌≡◌, [], ◌∷◌, map, All, MatchOption};
ghost use Rattle.elf_view.specs.Segments.{is_loaded, loads_in, segment_of, shown_segment, IsSoundSegment};

use crate::entries::Entries;
use crate::headers::ProgramHeader;
use crate::segment::Segment;

const LOAD: u32 = 1;

const EXECUTABLE: u32 = 1;

const WRITABLE: u32 = 2;

impl ProgramHeader {
    /// Whether the segment is loaded.
    pub(crate) fn is_load(&self) -> bool
        ensures { result ≡ is_loaded self.now }
    {
        self.kind == LOAD
    }

    /// The segment of the header.
    fn segment<'a>(&self, file: &'a [u8]) -> Segment<'a>
        requires { IsSoundSegment file.now self.now }
        ensures { shown_segment result ≡ segment_of file.now self.now }
    {
        let start = self.offset as usize;
        Segment {
            vaddr: self.vaddr,
            offset: self.offset,
            bytes: &file[start..start + self.filesz as usize],
            memsz: self.memsz,
            write: self.flags & WRITABLE != 0,
            exec: self.flags & EXECUTABLE != 0,
        }
    }
}

impl<'a> Entries<'a, ProgramHeader> {
    /// The next header of a loaded segment.
    fn next_load(&mut self) -> Option<ProgramHeader>
        ensures { MatchOption result
            ((loads_in self.old.file.now self.old.at self.old.left ≡ [])
            × (loads_in self.new.file.now self.new.at self.new.left ≡ []))
            (λ h. loads_in self.old.file.now self.old.at self.old.left
            ≡ h ∷ loads_in self.new.file.now self.new.at self.new.left) }
    {
        while let Some(header) = self.next() {
            if header.is_load() {
                return Some(header);
            }
        }
        None
    }
}

/// The loadable segments of a file, in the order of its program headers.
#[derive(Drop)]
pub struct Segments<'a> {
    file: &'a [u8],
    headers: Entries<'a, ProgramHeader>,
    pub ghost sound: { All (IsSoundSegment file.now) (loads_in headers.file.now headers.at headers.left) },
}

impl<'a> Segments<'a> {
    ghost use Rattle.elf_view.specs.Left.{segments_left};

    pub(crate) fn new(file: &'a [u8], headers: Entries<'a, ProgramHeader>) -> Segments<'a>
        requires { All (IsSoundSegment file.now) (loads_in headers.file.now headers.at headers.left) }
        ensures { segments_left result ≡ map (segment_of file.now)
            (loads_in headers.entry.file.now headers.entry.at headers.entry.left) }
    {
        Segments { file, headers }
    }
}

impl<'a> Iterator for Segments<'a> {
    ghost use Rattle.std.specs.Iterator.{YieldsFirstBy, item_count};
    ghost use Rattle.elf_view.specs.Segments.{shown_segment};
    ghost use Rattle.elf_view.specs.Left.{segments_left};

    type Item = Segment<'a>;

    ghost next_gives = { YieldsFirstBy shown_segment segments_left };

    ghost remaining = { item_count segments_left };

    fn next(&mut self) -> Option<Segment<'a>> {
        let header = self.headers.next_load()?;
        Some(header.segment(self.file))
    }
}
