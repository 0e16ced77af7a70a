ghost use Rattle.std.specs.Prelude.{◌≡◌, ℕ, ◌+◌, ◌<◌, ◌≤◌, ◌==◌, List, [], ◌∷◌, length, not, Some, None};
ghost use Rattle.std.specs.List.{prefix_len};
ghost use Rattle.std.specs.Iterator.{YieldsFirstRef, at_most};
ghost use Rattle.audit.specs.Lines.{Cut, lines_of, left, bytes_left};

use super::Lines;

// How many bytes stand before the first line feed.
fn line_len(bytes: &[u8]) -> usize
    ensures { result ≡ prefix_len (λ b. not (b == 10)) bytes.now }
{
    bytes.iter().take_while(|byte| **byte != b'\n').count()
}

impl<'a> Lines<'a> {
    /// All the lines of a recording.
    pub fn of(recording: &'a [u8]) -> Lines<'a>
        ensures lines { left result ≡ lines_of recording.now }
        ensures cut { Cut recording.now (left result) }
        ensures only { (ls : List (List ℕ)) → Cut recording.now ls → ls ≡ left result }
        ensures bytes { bytes_left result ≡ length recording.now }
        ensures recording { result.recording.now ≡ recording.now }
    {
        Lines { recording, at: 0 }
    }

    /// The next line, without its line feed, or `None` at the end.
    pub fn next_line(&mut self) -> Option<&'a [u8]>
        ensures lines { elim result [
          | None ↦ (left self.old ≡ []) × (left self.new ≡ [])
          | Some line ↦ left self.old ≡ line.now ∷ left self.new
        ] }
        ensures bytes { elim result [
          | None ↦ (bytes_left self.old ≡ 0) × (bytes_left self.new ≡ 0)
          | Some line ↦ (bytes_left self.new < bytes_left self.old)
              × (length line.now + bytes_left self.new ≤ bytes_left self.old)
        ] }
        ensures recording { self.new.recording.now ≡ self.old.recording.now }
    {
        let rest = &self.recording[self.at..];
        if rest.is_empty() {
            return None;
        }
        let line = &rest[..line_len(rest)];
        self.at = (self.at + line.len() + 1).min(self.recording.len());
        Some(line)
    }
}

impl<'a> Iterator for Lines<'a> {
    type Item = &'a [u8];

    ghost next_gives = { YieldsFirstRef left };

    ghost remaining = { λ s. at_most (bytes_left s) };

    fn next(&mut self) -> Option<&'a [u8]> {
        self.next_line()
    }
}
