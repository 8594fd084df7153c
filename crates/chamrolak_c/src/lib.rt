// The calls of crate chamrolak under their C names, with C's parameters: each export is the call, with the same clauses. include/chamrolak.h has them for C.
#![tactic(auto)]

ghost use Rattle.std.specs.Prelude.{◌≡◌, List, ℕ};
ghost use Rattle.rules.specs.Check.{check};
ghost use Rattle.rules.specs.Answers.{drive_reply, parse_reply};
ghost use Rattle.tables.specs.Places.{call_tables};
ghost use Rattle.chamrolak.specs.Exit.{returned_of, lent, limits_in, Leaves};

use chamrolak::Returned;

// The check of a call's tables: 10 to 17 with its place, or 0. It writes nothing.
#[unsafe(no_mangle)]
pub extern "C" fn chamrolak_check(
    sizes: &[u8],
    actions: &[u8],
    gotos: &[u8],
    productions: &[u8],
    rights: &[u8],
    items: &[u8],
    sets: &[u8],
) -> Returned
    ensures { result ≡ returned_of (check (call_tables sizes.now actions.now gotos.now productions.now rights.now items.now sets.now)) }
{
    chamrolak::chamrolak_check(sizes, actions, gotos, productions, rights, items, sets)
}

// The run without the check, for a host that has checked its tables once: 18 with nothing touched, or the answer. It is safe on any
// bytes; what the theory says of runs holds where the check passes.
#[unsafe(no_mangle)]
pub extern "C" fn chamrolak_drive(
    sizes: &[u8],
    actions: &[u8],
    gotos: &[u8],
    productions: &[u8],
    tokens: &[u8],
    origin: u32,
    budget: u32,
    stack: &mut [u8],
    scratch: &mut [u8],
    nodes: &mut [u8],
    children: &mut [u8],
    records: &mut [u8],
    report: &mut [u8; 64],
) -> Returned
    ensures { (rights items sets : List ℕ) → Leaves (call_tables sizes.now actions.now gotos.now productions.now rights items sets) (drive_reply (call_tables sizes.now actions.now gotos.now productions.now rights items sets) tokens.now origin (limits_in (lent stack.old scratch.old nodes.old children.old records.old report.old) budget)) result (lent stack.old scratch.old nodes.old children.old records.old report.old) (lent stack.new scratch.new nodes.new children.new records.new report.new) }
{
    chamrolak::chamrolak_drive(
        sizes,
        actions,
        gotos,
        productions,
        tokens,
        origin,
        budget,
        stack,
        scratch,
        nodes,
        children,
        records,
        report,
    )
}

// The whole of document 01 in one call: the check, 18, the run.
#[unsafe(no_mangle)]
pub extern "C" fn chamrolak_parse(
    sizes: &[u8],
    actions: &[u8],
    gotos: &[u8],
    productions: &[u8],
    rights: &[u8],
    items: &[u8],
    sets: &[u8],
    tokens: &[u8],
    origin: u32,
    budget: u32,
    stack: &mut [u8],
    scratch: &mut [u8],
    nodes: &mut [u8],
    children: &mut [u8],
    records: &mut [u8],
    report: &mut [u8; 64],
) -> Returned
    ensures { Leaves (call_tables sizes.now actions.now gotos.now productions.now rights.now items.now sets.now) (parse_reply (call_tables sizes.now actions.now gotos.now productions.now rights.now items.now sets.now) tokens.now origin (limits_in (lent stack.old scratch.old nodes.old children.old records.old report.old) budget)) result (lent stack.old scratch.old nodes.old children.old records.old report.old) (lent stack.new scratch.new nodes.new children.new records.new report.new) }
{
    chamrolak::chamrolak_parse(
        sizes,
        actions,
        gotos,
        productions,
        rights,
        items,
        sets,
        tokens,
        origin,
        budget,
        stack,
        scratch,
        nodes,
        children,
        records,
        report,
    )
}
