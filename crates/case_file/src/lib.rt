// The case file of document 01: the text of a record's line, and of a whole file.
#![tactic(auto)]

ghost use Rattle.std.specs.Prelude.{◌≡◌, ◌+◌, ◌*◌, ◌≤◌, ◌<◌, [], ◌∷◌, length, slice_index, take, Ok, Err};
ghost use Rattle.std.proofs.lemmas.List.Edits.{sets};
ghost use Rattle.io.specs.Counts.{IsPrefixLen};
ghost use Rattle.hex.specs.Hex.{encode_lower, lower_digits};
ghost use Rattle.case_read.specs.Case.{record_of, answer_of};
ghost use Rattle.case_read.specs.Reading.{records};
ghost use Rattle.case_file.specs.Text.{decimal, signed_decimal, hex, spaced};
ghost use Rattle.case_file.specs.CaseFile.{field, line_end, moved_fields, relaxed_fields, fields, line, line_of, lines, text};
ghost use Rattle.case_file.specs.Sample.{SampleHolds};
ghost use Rattle.case_file.specs.Parts.{written, capacity, put, HasRoom, most_of, HasRoomFor, Bounds};

use case_read::{Case, Records};
use refusal::Refusal;
use relax::Relaxed;
use x86_64_apply::Moved;

// A text at the start of a lent buffer.
// Kept: a length beside the buffer, which the caller lends: a Vec or an ArrayVec would own it.
#[derive(Drop)]
struct Text<'a> {
    out: &'a mut [u8],
    len: usize,
}

impl Text<'_> {
    // ---- Words

    #[tactic(auto, unfolding(crate::specs::Parts::put, crate::specs::Parts::written, crate::specs::Parts::capacity))]
    fn put_byte(&mut self, b: u8)
        requires { HasRoom self.old (b ∷ []) }
        ensures { self.new ≡ put self.old (b ∷ []) }
    {
        self.out[self.len] = b;
        self.len += 1;
    }

    #[tactic(auto, using(crate::proofs::Puts::parts), unfolding(crate::specs::Parts::put, crate::specs::Parts::written, crate::specs::Parts::capacity))]
    fn put_bytes(&mut self, bytes: &[u8])
        requires { HasRoom self.old bytes.now }
        ensures { self.new ≡ put self.old bytes.now }
    {
        let end = self.len + bytes.len();
        self.out[self.len..end].copy_from_slice(bytes);
        self.len = end;
    }

    // A word and a space.
    #[tactic(auto, using(crate::proofs::Puts::texts), unfolding(crate::specs::Text::spaced))]
    fn put_word(&mut self, word: &[u8])
        requires { HasRoom self.old (spaced word.now) }
        ensures { self.new ≡ put self.old (spaced word.now) }
    {
        self.put_bytes(word);
        self.put_byte(b' ');
    }

    #[tactic(auto, using(crate::proofs::Decimals::decimals))]
    fn put_field(&mut self, n: u64)
        requires { HasRoom self.old (field n) }
        ensures { self.new ≡ put self.old (field n) }
    {
        self.put_word(itoa::Buffer::new().format(n).as_bytes());
    }

    #[tactic(auto, using(crate::proofs::Puts::parts), unfolding(crate::specs::Parts::put, crate::specs::Parts::written, crate::specs::Parts::capacity, crate::specs::Text::hex))]
    fn put_hex(&mut self, section: &[u8])
        requires { HasRoom self.old (hex section.now) }
        ensures { self.new ≡ put self.old (hex section.now) }
    {
        if section.is_empty() {
            return self.put_byte(b'-');
        }
        let end = self.len + 2 * section.len();
        encode(section, &mut self.out[self.len..end]);
        self.len = end;
    }

    // ---- Lines

    #[tactic(auto, using(crate::proofs::Puts::texts), unfolding(crate::specs::CaseFile::line))]
    fn put_line(&mut self, number: u64, relaxed: Result<Option<Relaxed>, Refusal>, section: &[u8])
        requires { HasRoom self.old (line number relaxed section.now) }
        ensures { self.new ≡ put self.old (line number relaxed section.now) }
    {
        self.put_field(number);
        self.put_fields(relaxed);
        self.put_line_end(section);
    }

    fn put_fields(&mut self, relaxed: Result<Option<Relaxed>, Refusal>)
        requires { HasRoom self.old (fields relaxed) }
        ensures { self.new ≡ put self.old (fields relaxed) }
    {
        match relaxed {
            Ok(Some(relaxed)) => self.put_relaxed(relaxed),
            Ok(None) => self.put_word(b"none"),
            Err(refusal) => self.put_refused(refusal),
        }
    }

    // Kind, instruction offset, new offset, new addend, new type, skip, mandatory.
    #[tactic(auto, using(crate::proofs::Puts::texts), unfolding(crate::specs::CaseFile::relaxed_fields))]
    fn put_relaxed(&mut self, relaxed: Relaxed)
        requires { HasRoom self.old (relaxed_fields relaxed) }
        ensures { self.new ≡ put self.old (relaxed_fields relaxed) }
    {
        let Relaxed { relaxation, moved } = relaxed;
        self.put_field(relaxation.kind.number().into());
        self.put_field(relaxation.kind.inst_offset().into());
        self.put_moved(moved);
        self.put_field(relaxation.new_type.into());
        self.put_field(relaxation.next_modifier().is_skip().into());
        self.put_field(relaxation.is_mandatory().into());
    }

    #[tactic(auto, using(crate::proofs::Puts::texts, crate::proofs::Decimals::signed_decimals), unfolding(crate::specs::CaseFile::moved_fields))]
    fn put_moved(&mut self, moved: Moved)
        requires { HasRoom self.old (moved_fields moved) }
        ensures { self.new ≡ put self.old (moved_fields moved) }
    {
        self.put_field(moved.offset);
        self.put_word(itoa::Buffer::new().format(moved.addend).as_bytes());
    }

    #[tactic(auto, using(crate::proofs::Puts::texts))]
    fn put_refused(&mut self, refusal: Refusal)
        requires { HasRoom self.old (fields (Err refusal)) }
        ensures { self.new ≡ put self.old (fields (Err refusal)) }
    {
        self.put_word(b"refused");
        self.put_field(refusal.number().into());
    }

    // The section in hexadecimal, and the line's end.
    #[tactic(auto, using(crate::proofs::Puts::texts), unfolding(crate::specs::CaseFile::line_end))]
    fn put_line_end(&mut self, section: &[u8])
        requires { HasRoom self.old (line_end section.now) }
        ensures { self.new ≡ put self.old (line_end section.now) }
    {
        self.put_hex(section);
        self.put_byte(b'\n');
    }

    // ---- A whole file

    #[tactic(auto, using(crate::proofs::Puts::texts))]
    fn put_records(&mut self, file: &[u8])
        requires { HasRoomFor self.old (records file.now) }
        ensures lines { self.new ≡ put self.old (lines 1 (records file.now)) }
        ensures bound { written self.new ≤ capacity self.new }
    {
        for (index, read) in Records::new(file).enumerate() {
            self.put_record(index as u64 + 1, read);
        }
    }

    #[tactic(auto, using(crate::proofs::Bounds::line_bound), unfolding(crate::specs::CaseFile::line_of))]
    fn put_record(&mut self, number: u64, read: Result<Case<'_>, Refusal>)
        requires { written self.old + most_of (answer_of read) ≤ capacity self.old }
        ensures line { self.new ≡ put self.old (line_of number (answer_of read.entry)) }
        ensures bound { length (line_of number (answer_of read.entry)) ≤ most_of (answer_of read.entry) }
    {
        match read {
            Ok(case) => self.put_case(number, case),
            Err(refusal) => self.put_line(number, Err(refusal), &[]),
        }
    }

    // Relaxes the record of a case alone, in a copy of its section.
    #[tactic(auto, using(crate::proofs::Bounds::line_bound), unfolding(crate::specs::CaseFile::line_of))]
    fn put_case(&mut self, number: u64, case: Case<'_>)
        requires { written self.old + most_of (Ok (record_of case)) ≤ capacity self.old }
        ensures line { self.new ≡ put self.old (line_of number (Ok (record_of case.entry))) }
        ensures bound { length (line_of number (Ok (record_of case.entry))) ≤ most_of (Ok (record_of case.entry)) }
    {
        // Kept: a fixed buffer, since nothing is put on the heap.
        let mut buffer = [0; 4096];
        let copy = &mut buffer[..case.section.len()];
        copy.copy_from_slice(case.section);
        let relaxed = relax::relax(copy, case.rel);
        self.put_line(number, relaxed, copy);
    }
}

// The text of a case file, of which at most 65,536 bytes count, at the start of `out`, and how long
// it is. The contract ends with how long a line can be, and with document 01's sample.
// Kept: a fixed buffer that the caller lends, and the text's length, since the library has no heap and printing cannot fail.
#[tactic(auto, using(crate::proofs::Bounds::room, crate::proofs::Bounds::bounds, crate::proofs::Sample::sample_holds), unfolding(crate::specs::CaseFile::text, crate::specs::Parts::put, crate::specs::Parts::written, crate::specs::Parts::capacity))]
pub fn print_cases(file: &[u8], out: &mut [u8; 458923]) -> usize
    ensures out_after { out.new ≡ sets out.old 0 (text file.now) }
    ensures value { result ≡ length (text file.now) }
    ensures prefix_len { IsPrefixLen result out.new }
    ensures bounds { Bounds }
    ensures sample_holds { SampleHolds }
{
    let mut text = Text { out, len: 0 };
    text.put_records(first_bytes(file, 65536));
    text.len
}

// Writes two digits to a byte, as the library's `hex::encode_to_slice` does.
// Kept: by hand, since a byte takes 10 instructions by the library's table, and 3 by this.
fn encode(section: &[u8], out: &mut [u8])
    requires { length out.old ≡ 2 * length section.now }
    ensures { out.new ≡ encode_lower section.now }
{
    for i in 0..section.len() {
        let b = section[i];
        out[2 * i] = glyph(b / 16);
        out[2 * i + 1] = glyph(b % 16);
    }
}

#[tactic(auto, using(crate::proofs::Digits::digit))]
fn glyph(d: u8) -> u8
    requires { d < 16 }
    ensures { result ≡ slice_index lower_digits d }
{
    if d < 10 { 48 + d } else { 87 + d }
}

// The first bytes of a file, `most` of them where it has more.
fn first_bytes(file: &[u8], most: usize) -> &[u8]
    ensures value { result.now ≡ take most file.now }
    ensures bound { length result.now ≤ most }
{
    file.get(..most).unwrap_or(file)
}
