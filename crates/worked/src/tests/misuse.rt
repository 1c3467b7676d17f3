// Calls out of place: each says why, and changes nothing.
use super::play::{
    ASKED, ASKS, COPY, Gate, SAID, SERVER, answers, asked_by, comes, goes_out, heard_out, hears,
    in_vain, no_client, no_server, no_turn, opened, rests, says,
};
use proxy::state::{Misuse, SLAB};
use proxy_laws::calls;
use request::reading::MEMORY;
use rules::Rule;
use std::process::Abort;
use std::test::Fail;

// 16 clients and two servers are there.
#[test]
fn before_anything_came(rt: HostRuntime) -> Result<(), Fail> {
    let mut gate = opened(&rt)?;
    rests(&rt, &gate);
    no_turn(&rt, &mut gate, Misuse::Rests)?;
    no_client(&rt, &mut gate, 16, Misuse::Nobody);
    no_server(&rt, &mut gate, 2, Misuse::Nobody)?;
    no_server(&rt, &mut gate, 8, Misuse::Nobody)?;
    rests(&rt, &gate);
    comes(&mut gate, 15)?;
    goes_out(&rt, &mut gate, 15, ASKED, 27, ASKS)?;
    rests(&rt, &gate);
    no_turn(&rt, &mut gate, Misuse::Rests)
}

// So many names and lists of rules are no settings of a gate.
fn is_misfit(rt: &impl Abort, names: &[&[u8]], rules: &[&[Rule<'_>]]) -> Result<(), Fail> {
    let Err(misuse) = calls::open(names, rules) else {
        return Err(Fail::new("opened"));
    };
    assert_eq!(rt; misuse, Misuse::Misfit);
    Ok(())
}

#[test]
fn too_many_servers(rt: HostRuntime) -> Result<(), Fail> {
    let names: [&[u8]; 9] = [b"a", b"b", b"c", b"d", b"e", b"f", b"g", b"h", b"i"];
    let rules: [&[Rule<'_>]; 9] = [&[], &[], &[], &[], &[], &[], &[], &[], &[]];
    is_misfit(&rt, &names, &rules)?;
    is_misfit(&rt, &names[..1], &rules[..2])?;
    is_misfit(&rt, &names[..2], &rules[..1])?;
    let gate = calls::open(&names[..8], &rules[..8])?;
    assert!(rt; gate.rests());
    Ok(())
}

// While a client is in the line nothing may come.
#[test]
fn events_too_early(rt: HostRuntime) -> Result<(), Fail> {
    let mut gate = opened(&rt)?;
    comes(&mut gate, 3)?;
    assert!(rt; !gate.proxy.rests());
    no_client(&rt, &mut gate, 3, Misuse::Early);
    no_client(&rt, &mut gate, 4, Misuse::Early);
    no_server(&rt, &mut gate, SERVER, Misuse::Early)?;
    goes_out(&rt, &mut gate, 3, ASKED, 27, ASKS)?;
    rests(&rt, &gate);
    Ok(())
}

// While a piece is being heard nothing may come and nobody goes on, up to its end.
#[test]
fn calls_within_a_piece(rt: HostRuntime) -> Result<(), Fail> {
    let mut gate = asked_by(&rt, &[3])?;
    let heard = says(&mut gate, SAID)?;
    hears(&rt, &mut gate)?;
    let heard = answers(&rt, &mut gate, heard, 3, 0, COPY)?;
    hears(&rt, &mut gate)?;
    heard_out(&mut gate, heard)?;
    in_vain(&rt, &mut gate, 3, b"", 0)?;
    rests(&rt, &gate);
    comes(&mut gate, 4)?;
    goes_out(&rt, &mut gate, 4, ASKED, 27, ASKS)
}

// Nobody goes on in a memory of another size or with an output that is too small; memory and output stay as they were.
fn no_turn_in(
    rt: &(impl Abort + AllocGlobal),
    gate: &mut Gate,
    memory_len: usize,
    out_len: usize,
    misuse: Misuse,
) -> Result<(), Fail> {
    let mut memory = vec![in rt.alloc(); b'.'; memory_len]?;
    let mut out = vec![in rt.alloc(); b'.'; out_len]?;
    let Err(found) = calls::go_on(&mut gate.proxy, &mut memory, ASKED, &mut out) else {
        return Err(Fail::new("somebody went on"));
    };
    assert_eq!(rt; found, misuse);
    assert!(rt; memory.iter().all(|byte| *byte == b'.'));
    assert!(rt; out.iter().all(|byte| *byte == b'.'));
    Ok(())
}

// A slot has 282,624 bytes, and there are 24 of them.
#[test]
fn sizes_for_a_client(rt: HostRuntime) -> Result<(), Fail> {
    assert_eq!(rt; MEMORY, 282_624);
    assert_eq!(rt; SLAB, 6_782_976);
    let mut gate = opened(&rt)?;
    comes(&mut gate, 3)?;
    no_turn_in(&rt, &mut gate, 0, MEMORY, Misuse::Memory)?;
    no_turn_in(&rt, &mut gate, SLAB - 1, MEMORY, Misuse::Memory)?;
    no_turn_in(&rt, &mut gate, SLAB + 1, MEMORY, Misuse::Memory)?;
    no_turn_in(&rt, &mut gate, SLAB, MEMORY - 1, Misuse::Room)?;
    no_turn_in(&rt, &mut gate, SLAB, 0, Misuse::Room)?;
    goes_out(&rt, &mut gate, 3, ASKED, 27, ASKS)
}

// A piece is given back where the memory is not of its size, and is heard in the right one.
#[test]
fn sizes_for_a_server(rt: HostRuntime) -> Result<(), Fail> {
    let mut gate = asked_by(&rt, &[3])?;
    let mut small = [b'.'; 20];
    let mut long = vec![in rt.alloc(); b'.'; SLAB + 1]?;
    let heard = says(&mut gate, SAID)?;
    let Err(heard) = calls::next(&mut gate.proxy, heard, &mut small) else {
        return Err(Fail::new("heard in a small memory"));
    };
    let Err(heard) = calls::next(&mut gate.proxy, heard, &mut long) else {
        return Err(Fail::new("heard in a long memory"));
    };
    assert!(rt; &small == b"....................");
    assert!(rt; long.iter().all(|byte| *byte == b'.'));
    hears(&rt, &mut gate)?;
    let heard = answers(&rt, &mut gate, heard, 3, 0, COPY)?;
    heard_out(&mut gate, heard)
}
