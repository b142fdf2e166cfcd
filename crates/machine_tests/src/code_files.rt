//! A code file made by hand, read, looked at and written again; and bytes that are those of no code file.

use code_file::{CodeError, CodeFile, has_short_lists, names_of, read_code, verify, write_code};
use core_tree::Core;
use flat_code::{Instr, Op};
use hs_base::NoMemory;
use std::alloc::Global;
use std::test::Fail;

/// The parts of the file, in order.
const PARTS: [&[u8]; 23] = [
    b"HSCODE01",
    // three instructions: the start of function 0, an integer of -2 handed over, a multiplication in i32
    b"\x03\0\0\0",
    b"\0\0\0\0\0\0\0\0\0\0\0\0\0\0\0\0\0\0\0\0\0",
    b"\x02\0\0\0\0\0\0\0\0\0\0\0\0\xfe\xff\xff\xff\xff\xff\xff\xff",
    b"\x34\x01\0\0\0\0\x02\0\0\x03\0\x01\0\0\0\0\0\0\0\0\0",
    // one function: its first instruction is 1, it has no parameters, a register for pointers and one for integers, and a
    // memory local of layout 0
    b"\x01\0\0\0",
    b"\x01\0\0\0\0\0\0\0\x02\0\0\0\x01\0\x01\0\0\0\0\0\0\0",
    // one static: it has layout 0, the byte 7, and at 4 a pointer to offset 1 of static 0
    b"\x01\0\0\0",
    b"\0\0\0\0\x01\0\0\0\x07\x01\0\0\0\x04\0\0\0\0\0\0\0\x01\0\0\0",
    // one layout: size 8, alignment 4 and a slot at 4
    b"\x01\0\0\0",
    b"\x08\0\0\0\x04\0\0\0\x01\0\0\0\x04\0\0\0",
    // one site: instruction 2 with register 0
    b"\x01\0\0\0",
    b"\x02\0\0\0\x01\0\0\0\0\0\0\0",
    // the lines
    b"\x03\0\0\0",
    b"\x01\0\0\0\x01\0\0\0\x02\x01\0\0",
    // one format
    b"\x01\0\0\0",
    b"\x02\0\0\0%d",
    // the static is called g
    b"\x01\0\0\0",
    b"\x01\x01\0\0\0g",
    // the function is called main and is of line 1; its first register is called p, and the other one has no name; its
    // memory local is called m
    b"\x01\0\0\0\x04\0\0\0main\x01\0\0\0",
    b"\x02\0\0\0",
    b"\x01\x01\0\0\0p\0",
    b"\x01\0\0\0\x01\0\0\0m",
];

/// The bytes of the file.
fn sample(alloc: Global) -> Result<Vec<u8>, NoMemory> {
    let mut bytes = Vec::new(alloc);
    for part in PARTS {
        bytes.extend_from_slice(part)?;
    }
    Ok(bytes)
}

/// Says whether bytes are those of no code file.
fn is_bad(alloc: Global, bytes: &[u8]) -> bool {
    match read_code(alloc, bytes) {
        Ok(_) => false,
        Err(error) => error == CodeError::Form,
    }
}

/// The file with one byte changed.
fn changed(alloc: Global, place: usize, byte: u8) -> Result<Vec<u8>, NoMemory> {
    let mut bytes = sample(alloc)?;
    if let Some(at) = bytes.get_mut(place) {
        *at = byte;
    }
    Ok(bytes)
}

/// The code file of the bytes.
fn sample_file(alloc: Global) -> Result<CodeFile, Fail> {
    let bytes = sample(alloc)?;
    Ok(read_code(alloc, &bytes)?)
}

/// The number in the instruction at a place.
fn number_at(file: &CodeFile, place: usize) -> Option<i64> {
    Some(file.code.instrs.get(place)?.imm)
}

/// How many bytes the first static has, and how many registers the first function.
fn first_lengths(file: &CodeFile) -> Option<(usize, usize)> {
    let first = file.code.statics.get(0)?;
    Some((first.bytes.len(), file.names.funcs.get(0)?.regs.len()))
}

#[test]
fn read(rt: HostRuntime) -> Result<(), Fail> {
    let file = sample_file(rt.alloc())?;
    let instr = Instr {
        op: Op::Bin(core_tree::BinOp::Mul, hs_base::IntKind::I32),
        a: 1,
        b: 512,
        c: 65539,
        imm: 0,
    };
    assert_eq!(rt; file.code.instrs.get(2).copied(), Some(instr));
    assert_eq!(rt; number_at(&file, 1), Some(-2));
    assert_eq!(rt; file.code.lines.get(2).copied(), Some(258));
    assert_eq!(rt; first_lengths(&file), Some((1, 2)));
    Ok(())
}

#[test]
fn written_again(rt: HostRuntime) -> Result<(), Fail> {
    let alloc = rt.alloc();
    let bytes = sample(alloc)?;
    let written = write_code(alloc, &read_code(alloc, &bytes)?)?;
    assert!(rt; written.as_slice() == bytes.as_slice());
    Ok(())
}

#[test]
fn other_bytes_are_refused(rt: HostRuntime) -> Result<(), Fail> {
    let alloc = rt.alloc();
    let mut bytes = sample(alloc)?;
    for end in 0..bytes.len() {
        assert!(rt; is_bad(alloc, &bytes[..end]), "cut at {end}");
    }
    bytes.push(0)?;
    assert!(rt; is_bad(alloc, &bytes), "a byte more");
    // the place of a byte, and what it becomes
    let edits: [(usize, u8); 12] = [
        // another first byte
        (0, b'h'),
        // an instruction more than there are, and very many
        (8, 4),
        (11, 255),
        // an operation past the table
        (12, 172),
        // a truth value of 2
        (91, 2),
        // the start of a static ends in a zero
        (113, 0),
        // a function less, and a static less, than there are names
        (75, 0),
        (101, 0),
        // a memory local and a register with no name
        (93, 0),
        (87, 1),
        // a name that is neither there nor missing
        (196, 2),
        // a list with another length
        (109, 9),
    ];
    for (place, byte) in edits {
        let edited = changed(alloc, place, byte)?;
        assert!(rt; is_bad(alloc, &edited), "{byte} at {place}");
    }
    Ok(())
}

#[test]
fn nothing_is_refused(rt: HostRuntime) -> Result<(), Fail> {
    assert!(rt; is_bad(rt.alloc(), b""));
    Ok(())
}

/// An instruction with two numbers.
fn put_instr(bytes: &mut Vec<u8>, op: u8, a: u8, b: u8) -> Result<(), NoMemory> {
    bytes.push(op)?;
    bytes.extend_from_slice(&[a, 0, 0, 0, b, 0, 0, 0, 0, 0, 0, 0])?;
    bytes.extend_from_slice(&[0; 8])?;
    Ok(())
}

/// A file whose main tests register 0 after a scope, with a target of its jump and a pin of its site:
///
/// ```text
/// 0 start 0
/// 1 jump 2
/// 2 hand null
/// 3 set r0
/// 4 enter
/// 5 leave
/// 6 hand r0
/// 7 test r1
/// 8 hand r1
/// 9 give
/// ```
fn walk(alloc: Global, target: u8, pins: &[u8]) -> Result<Vec<u8>, NoMemory> {
    let mut bytes = Vec::new(alloc);
    bytes.extend_from_slice(b"HSCODE01\x0a\0\0\0")?;
    let instrs = [
        (0, 0, 0),
        (148, 0, target),
        (4, 0, 0),
        (7, 0, 0),
        (168, 0, 0),
        (169, 0, 0),
        (1, 0, 0),
        (127, 1, 0),
        (1, 1, 0),
        (171, 0, 0),
    ];
    for (op, a, b) in instrs {
        put_instr(&mut bytes, op, a, b)?;
    }
    // main begins at 1, and has a register for pointers and one for integers
    bytes.extend_from_slice(b"\x01\0\0\0\x01\0\0\0\0\0\0\0\x02\0\0\0\x01\0\0\0\0\0")?;
    // no statics, no layouts, and the site of instruction 5
    bytes.extend_from_slice(b"\0\0\0\0\0\0\0\0\x01\0\0\0\x05\0\0\0")?;
    bytes.extend_from_slice(pins)?;
    // the lines, no formats and no statics
    bytes.extend_from_slice(b"\x0a\0\0\0")?;
    for _ in 0..10 {
        bytes.extend_from_slice(b"\x01\0\0\0")?;
    }
    bytes.extend_from_slice(b"\0\0\0\0\0\0\0\0")?;
    // main, of line 1, whose registers have no names
    bytes.extend_from_slice(b"\x01\0\0\0\x04\0\0\0main\x01\0\0\0\x02\0\0\0\0\0\0\0\0\0")?;
    Ok(bytes)
}

/// Says whether the code in bytes is well formed.
fn is_verified(alloc: Global, bytes: &[u8]) -> Result<bool, Fail> {
    let file = read_code(alloc, bytes)?;
    Ok(verify(alloc, &file)?)
}

#[test]
fn verified(rt: HostRuntime) -> Result<(), Fail> {
    let alloc = rt.alloc();
    // the target of the jump, the pins of the site, and whether the code is well formed
    let walks: [(u8, &[u8], bool); 5] = [
        (2, b"\x01\0\0\0\0\0\0\0", true),
        // past the last instruction, and between what is handed over and what takes it
        (10, b"\x01\0\0\0\0\0\0\0", false),
        (3, b"\x01\0\0\0\0\0\0\0", false),
        // a pointer that is live is left out, and an integer is a pin
        (2, b"\0\0\0\0", false),
        (2, b"\x02\0\0\0\0\0\0\0\x01\0\0\0", false),
    ];
    for (target, pins, well_formed) in walks {
        let bytes = walk(alloc, target, pins)?;
        let found = is_verified(alloc, &bytes)?;
        assert!(rt; found == well_formed, "to {target} with {pins:?}");
    }
    assert!(rt; !is_verified(alloc, &sample(alloc)?)?);
    Ok(())
}

/// Says whether bytes are refused, or are those that the file is written as which they give; the file is verified too.
fn is_read_back(alloc: Global, bytes: &[u8]) -> Result<bool, NoMemory> {
    match read_code(alloc, bytes) {
        Ok(file) => {
            verify(alloc, &file)?;
            Ok(write_code(alloc, &file)?.as_slice() == bytes)
        }
        Err(CodeError::Form) => Ok(true),
        Err(CodeError::NoMemory) => Err(NoMemory),
    }
}

/// The same bytes with these bits of one turned over.
fn turned(alloc: Global, bytes: &[u8], place: usize, bits: u8) -> Result<Vec<u8>, NoMemory> {
    let mut changed = bytes.to_vec(alloc)?;
    if let Some(byte) = changed.get_mut(place) {
        *byte ^= bits;
    }
    Ok(changed)
}

#[test]
fn each_byte_changed(rt: HostRuntime) -> Result<(), Fail> {
    let alloc = rt.alloc();
    let bytes = walk(alloc, 2, b"\x01\0\0\0\0\0\0\0")?;
    for place in 0..bytes.len() {
        for bits in [1, 128, 255] {
            let changed = turned(alloc, bytes.as_slice(), place, bits)?;
            assert!(rt;
                is_read_back(alloc, changed.as_slice())?,
                "{bits} at {place}"
            );
        }
    }
    Ok(())
}

/// The line of the first function, and how many registers and memory locals it has.
fn first_function(core: &Core) -> Option<(u32, usize, usize)> {
    let function = core.funcs.get(0)?;
    Some((function.line, function.regs.len(), function.mems.len()))
}

#[test]
fn names_of_a_core(rt: HostRuntime) -> Result<(), Fail> {
    let alloc = rt.alloc();
    let file = sample_file(alloc)?;
    let names = names_of(alloc, &file.names)?;
    assert_eq!(rt; first_function(&names), Some((1, 2, 1)));
    assert_eq!(rt; names.statics.len(), 1);
    assert!(rt; has_short_lists(&file.code));
    Ok(())
}
