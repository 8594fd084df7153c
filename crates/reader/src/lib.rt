// "The file": from the bytes of a file to its eight payloads, or its refusal 30 to 33 with its place. Payloads are
// handed on as parts of the input; nothing is copied.
#![tactic(auto)]

ghost use Rattle.std.specs.Prelude.{◌≡◌, ◌+◌, ◌≤◌, ◌<◌, length, IfOk};
ghost use Rattle.rules.specs.File.{is_cut, file_of};
ghost use Rattle.reader.specs.Reading.{number_of, class_of, fitted_of, ended_of, seen_of, seen_at, placed, filed_of, AreCutOf};
ghost use Rattle.reader.specs.Tokens.{widen_token, Widened};

use words::Word;

// A payload: where its first byte stands in the file, and its bytes, which are a part of the file's. The rules tell a payload by its
// first byte and its length.
#[derive(Clone, Copy, Debug)]
pub struct Payload<'a> {
    pub start: usize,
    pub bytes: &'a [u8],
}

// "sizes, actions, gotos, productions (left side, length), right sides, items, first sets, tokens"
#[derive(Clone, Copy, Debug)]
pub struct Payloads<'a> {
    pub sizes: Payload<'a>,
    pub actions: Payload<'a>,
    pub gotos: Payload<'a>,
    pub productions: Payload<'a>,
    pub rights: Payload<'a>,
    pub items: Payload<'a>,
    pub sets: Payload<'a>,
    pub tokens: Payload<'a>,
}

// "Refusals: 33 too long, 30 cut record, 31 kind wrong or missing, 32 length wrong"
#[derive(Clone, Copy, Debug, PartialEq, Eq, Hash)]
pub enum Refusal {
    Cut,
    Kind,
    Length,
    TooLong,
}

impl Refusal {
    // Its number in document 01: a method and no `From`, since `filed_of` cites it by name.
    pub fn number(self) -> usize
        ensures { result ≡ number_of self }
    {
        match self {
            Refusal::Cut => 30,
            Refusal::Kind => 31,
            Refusal::Length => 32,
            Refusal::TooLong => 33,
        }
    }
}

// Why a file is refused, and the place: "the record's first byte (0 for 33, file length for a missing kind)".
#[derive(Clone, Copy, Debug, PartialEq, Eq, Hash)]
pub struct FileError {
    pub refusal: Refusal,
    pub place: usize,
}

// A record that is not refused, with its payload's length: one to skip, or the next of the payloads.
#[derive(Clone, Copy, Debug, PartialEq, Eq, Hash)]
pub enum Record {
    Skipped(usize),
    Wanted(usize),
}

// What a two-byte kind says by itself: its record is refused, it is skipped, or it holds whole entries of so many bytes.
// "kinds 9 to 32767 are refused and 32768 up are skipped"; entries "of 2 bytes in kinds 2, 3 and 5, 4 in kind 4, 8 in 6, 33 in 7,
// 10 in 8", and kind 1 is one entry of 12.
#[tactic(auto, unfolding(crate::specs::Reading::class_of))]
pub fn class_of(kind: u16) -> Result<Option<usize>, Refusal>
    ensures { result ≡ class_of kind }
{
    match kind {
        0 => Err(Refusal::Kind),
        1 => Ok(Some(12)),
        2 | 3 | 5 => Ok(Some(2)),
        4 => Ok(Some(4)),
        6 => Ok(Some(8)),
        7 => Ok(Some(33)),
        8 => Ok(Some(10)),
        9..=32767 => Err(Refusal::Kind),
        32768..=65535 => Ok(None),
    }
}

// "32 length wrong (kind 1: not 12 bytes; else not whole entries ..)", for a kind from 1 to 8 whose entries are `entry` bytes long
#[tactic(auto, unfolding(crate::specs::Reading::fitted_of))]
fn fitted(kind: usize, entry: usize, size: usize, want: usize) -> Result<Record, Refusal>
    requires { 0 < entry }
    ensures { result ≡ fitted_of kind entry size want }
{
    if kind != want {
        return Err(Refusal::Kind);
    }
    let fits = if kind == 1 {
        size == 12
    } else {
        size % entry == 0
    };
    if fits {
        Ok(Record::Wanted(size))
    } else {
        Err(Refusal::Length)
    }
}

// "30 cut record"
#[tactic(auto, using(crate::specs::Reading::cut_head))]
fn cut(s: &[u8], at: usize) -> bool
    requires { at ≤ length s.now }
    ensures { result ≡ is_cut s.now at }
{
    s.len() - at < 6 || s.len() - at - 6 < u32::get(s, at) as usize
}

// Where the file ends: "missing" is a file that ends before kind 8.
#[tactic(auto, unfolding(crate::specs::Reading::ended_of))]
fn ended(want: usize) -> Result<Option<Record>, Refusal>
    ensures { result ≡ ended_of want }
{
    if want == 9 {
        Ok(None)
    } else {
        Err(Refusal::Kind)
    }
}

// A record that is not cut, by its kind and its payload's length, where kind `want` is the next.
#[tactic(auto, using(crate::specs::Reading::by_class, crate::specs::Reading::positive_entries))]
fn judged(kind: u16, size: usize, want: usize) -> Result<Record, Refusal>
    requires { 1 ≤ want }
    ensures { result ≡ seen_of kind size want }
{
    match class_of(kind)? {
        None => Ok(Record::Skipped(size)),
        Some(entry) => fitted(kind as usize, entry, size, want),
    }
}

// What stands at a place, or nothing more: "30 cut record, 31 kind wrong or missing, 32 length wrong .. in that order record by
// record".
#[tactic(auto, unfolding(crate::specs::Reading::seen_at))]
fn seen_at(s: &[u8], at: usize, want: usize) -> Result<Option<Record>, Refusal>
    requires { (at ≤ length s.now) × (1 ≤ want) }
    ensures { result ≡ seen_at s.now at want }
{
    if at == s.len() {
        return ended(want);
    }
    if cut(s, at) {
        return Err(Refusal::Cut);
    }
    Ok(Some(judged(u16::get(s, at + 4), u32::get(s, at) as usize, want)?))
}

// The same, and a refusal with its place: "place the record's first byte (.. file length for a missing kind)".
fn record_at(s: &[u8], at: usize, want: usize) -> Result<Option<Record>, FileError>
    requires { (at ≤ length s.now) × (1 ≤ want) }
    ensures { result ≡ placed at (seen_at s.now at want) }
{
    seen_at(s, at, want).map_err(|refusal| FileError { refusal, place: at })
}

// The whole file: "Kinds 1 to 8 once each, ascending"; "33 too long"; "place the record's first byte (0 for 33, file length for a
// missing kind)". A payload stands behind its record's head of six bytes.
pub fn read_file(s: &[u8]) -> Result<Payloads<'_>, FileError>
    ensures parts { filed_of result ≡ file_of s.now }
    ensures bytes { IfOk result (λ ps. AreCutOf s.now ps) }
{
    if 65536 < s.len() {
        return Err(FileError {
            refusal: Refusal::TooLong,
            place: 0,
        });
    }
    let mut found = [Payload {
        start: 0,
        bytes: &s[..0],
    }; 8];
    let mut at = 0;
    let mut want = 1;
    // A loop and no iterator of records: each is judged by the kind that is next, and an iterator would hold these two counts in a
    // struct and be no plainer.
    while let Some(record) = record_at(s, at, want)? {
        match record {
            Record::Skipped(size) => at = at + 6 + size,
            Record::Wanted(size) => {
                let start = at + 6;
                let end = start + size;
                found[want - 1] = Payload {
                    start,
                    bytes: &s[start..end],
                };
                at = end;
                want += 1;
            }
        }
    }
    let [
        sizes,
        actions,
        gotos,
        productions,
        rights,
        items,
        sets,
        tokens,
    ] = found;
    Ok(Payloads {
        sizes,
        actions,
        gotos,
        productions,
        rights,
        items,
        sets,
        tokens,
    })
}

// The token at `from` of a payload as three 32-bit words at `at` of a room.
#[tactic(auto, unfolding(crate::specs::Tokens::widen_token))]
fn widen_token(payload: &[u8], from: usize, out: &mut [u8], at: usize)
    requires { (from + 10 ≤ length payload.now) × (at + 12 ≤ length out.old) }
    ensures { out.new ≡ widen_token payload.now from out.old at }
{
    let kind = u16::get(payload, from);
    let start = u32::get(payload, from + 2);
    let end = u32::get(payload, from + 6);
    u32::put(out, at, kind as u32);
    u32::put(out, at + 4, start);
    u32::put(out, at + 8, end);
}

// The tokens of a payload as a call takes them, as many as the room holds; the rest of the room is unchanged. "Numbers take 2 bytes,
// locations 4", so a file's token takes 10 bytes; a call's takes 12.
pub fn widen_tokens(payload: &[u8], out: &mut [u8]) -> usize
    ensures { Widened payload.now out.old out.new result }
{
    let n = (payload.len() / 10).min(out.len() / 12);
    for i in 0..n {
        widen_token(payload, 10 * i, out, 12 * i);
    }
    n
}
