// "The file": what the program prints for a file, written into a lent buffer. The file is read into its payloads, its tokens are
// widened to a call's, the call is made, and its reply is written as document 01's lines.
#![tactic(auto)]

ghost use Rattle.std.specs.Prelude.{◌≡◌};
ghost use Rattle.rules.specs.File.{refused_line};
ghost use Rattle.printer.specs.Writing.{Wrote};

use chamrolak::{Returned, chamrolak_parse};
use printer::{Answer, Page, Trees};
use reader::{FileError, Payloads};
use words::Word;

// The rooms of a call, and one for the tokens of the longest file, each lent by itself, wherever the caller has it. "Limits: 1,000,000
// units, depth 512, 4,096 child entries, 1,024 nodes, 64 records": so long are they.
#[derive(Drop)]
pub struct Rooms<'a> {
    pub tokens: &'a mut [u8; 78636],
    pub stack: &'a mut [u8; 16384],
    pub scratch: &'a mut [u8; 2048],
    pub nodes: &'a mut [u8; 32768],
    pub children: &'a mut [u8; 16384],
    pub records: &'a mut [u8; 4096],
    pub report: &'a mut [u8; 64],
}

// The line of a refusal, from the front of `out` on, and the place behind it.
fn refuse(out: &mut [u8], number: usize, place: usize) -> usize
    ensures { Wrote out.old 0 (refused_line number place) out.new result }
{
    let mut page = Page::new(out);
    page.refused_line(number, place);
    page.at
}

// The lines of a reply, by what a call returned and left. A refusal touches no room, so a report whose first word was 0 still has it;
// an answer's report begins with its number, which is not 0. So the report tells which it is; what the call returned would need the list
// of the answers' numbers again.
fn tell(returned: Returned, productions: &[u8], rooms: &Rooms<'_>, out: &mut [u8]) -> usize {
    let Returned { number, value } = returned;
    let nodes = &*rooms.nodes;
    let children = &*rooms.children;
    let records = &*rooms.records;
    let report = &*rooms.report;
    let answer = u32::get(report, 0);
    if answer == 0 {
        return refuse(out, number as usize, value as usize);
    }
    // So many entries of a room, in bytes, and never more than the room has.
    let n = (u32::get(report, 20) as usize * 32).min(nodes.len());
    let k = (u32::get(report, 24) as usize * 4).min(children.len());
    let mut page = Page::new(out);
    page.answer_lines(&Answer {
        number: answer as usize,
        place: u32::get(report, 8) as usize,
        root: u32::get(report, 4),
        units: u32::get(report, 16) as usize,
        expected: &report[32..64],
        trees: Trees {
            productions,
            nodes: &nodes[..n],
            children: &children[..k],
        },
        records,
        count: u32::get(report, 28),
    });
    page.at
}

// The call on the payloads and the widened tokens, and its lines. "start location 0"
fn answer(payloads: Payloads<'_>, rooms: &mut Rooms<'_>, out: &mut [u8]) -> usize {
    // Each room is lent on by a name of its own.
    let tokens = &mut *rooms.tokens;
    let stack = &mut *rooms.stack;
    let scratch = &mut *rooms.scratch;
    let nodes = &mut *rooms.nodes;
    let children = &mut *rooms.children;
    let records = &mut *rooms.records;
    let report = &mut *rooms.report;
    let end = 12 * reader::widen_tokens(payloads.tokens.bytes, tokens);
    u32::put(report, 0, 0);
    let returned = chamrolak_parse(
        payloads.sizes.bytes,
        payloads.actions.bytes,
        payloads.gotos.bytes,
        payloads.productions.bytes,
        payloads.rights.bytes,
        payloads.items.bytes,
        payloads.sets.bytes,
        &tokens[..end],
        0,
        1000000,
        stack,
        scratch,
        nodes,
        children,
        records,
        report,
    );
    tell(returned, payloads.productions.bytes, rooms, out)
}

// What the program prints for a file, from the front of `out` on, and the place behind it.
pub fn fill(file: &[u8], rooms: &mut Rooms<'_>, out: &mut [u8]) -> usize {
    match reader::read_file(file) {
        Err(FileError { refusal, place }) => refuse(out, refusal.number(), place),
        Ok(payloads) => answer(payloads, rooms, out),
    }
}
