//! Lines of reports that were worked out by hand, and the remaining forms.
use cf_bind::{Binding, Cell, End, Fetch, Guess, Move, Op, Packet, Passenger};
use cf_io::MemSink;
use cf_report::{Tally, put_fetch, put_move, put_retired, put_siding, put_stage, put_tally};
use rv_inst::{Instr, LoadKind, decode};
use rv_machine::Retired;
use std::process::Abort;

fn sink(rt: &(impl Abort + AllocGlobal)) -> MemSink {
    let fails = Vec::new(rt.alloc());
    MemSink::new(rt.alloc(), 2000, fails).expect(rt, "memory")
}

/// An instruction that was just issued.
fn issued(pc: u32, word: u32) -> Passenger {
    Passenger {
        pc,
        what: decode(word),
        guess: Guess::Next,
        src1: None,
        src2: None,
        dst: None,
        done: false,
        launched: false,
        recovered: false,
        next: None,
        ending: None,
        owes: None,
        dead: false,
    }
}

fn register(reg: u8, value: Option<u32>) -> Option<Binding> {
    Some(Binding { reg, value })
}

/// An empty stage.
const EMPTY: Cell = Cell {
    passenger: None,
    packet: None,
    met: false,
};

/// A stage with only an instruction.
fn instruction_alone(passenger: Passenger) -> Cell {
    Cell {
        passenger: Some(passenger),
        ..EMPTY
    }
}

/// A stage with only a result.
fn result_alone(packet: Packet) -> Cell {
    Cell {
        packet: Some(packet),
        ..EMPTY
    }
}

/// A stage with an instruction and a result that have met.
fn met(passenger: Passenger, packet: Packet) -> Cell {
    Cell {
        passenger: Some(passenger),
        packet: Some(packet),
        met: true,
    }
}

/// `addi x10, x0, 7`, whose result was sent, in the lowest stage.
fn sent() -> Cell {
    let passenger = Passenger {
        dst: register(10, Some(7)),
        done: true,
        next: Some(0x0001_0004),
        ..issued(0x0001_0000, 0x0070_0513)
    };
    met(passenger, Packet::Value { reg: 10, value: 7 })
}

/// `addi x1, x1, 1`, which was executed and still owes its result.
fn owing() -> Cell {
    let passenger = Passenger {
        src1: register(1, Some(0)),
        dst: register(1, Some(1)),
        done: true,
        next: Some(0x0001_0004),
        owes: Some(Packet::Value { reg: 1, value: 1 }),
        ..issued(0x0001_0000, 0x0010_8093)
    };
    instruction_alone(passenger)
}

/// `addi x1, x1, 1`, which has its source.
fn ready() -> Cell {
    let passenger = Passenger {
        src1: register(1, Some(1)),
        dst: register(1, None),
        ..issued(0x0001_0004, 0x0010_8093)
    };
    instruction_alone(passenger)
}

/// `addi x5, x10, 1`, before it meets the value of its source.
fn unmet() -> Cell {
    let passenger = Passenger {
        src1: register(10, None),
        dst: register(5, None),
        ..issued(0x0001_0000, 0x0015_0293)
    };
    Cell {
        passenger: Some(passenger),
        packet: Some(Packet::Value { reg: 10, value: 0 }),
        met: false,
    }
}

/// `sw x1, 0(x2)`, which died of a turn.
fn dead() -> Cell {
    let passenger = Passenger {
        src1: register(2, None),
        src2: register(1, None),
        dead: true,
        ..issued(0x0001_0004, 0x0011_2023)
    };
    met(passenger, Packet::Turn(0x0001_0008))
}

/// `slli x1, x0, 1`, dead while its operation is in a siding.
fn dead_out() -> Cell {
    let passenger = Passenger {
        dst: register(1, None),
        launched: true,
        dead: true,
        ..issued(0x0001_0004, 0x0010_1093)
    };
    instruction_alone(passenger)
}

/// `jalr x0, 0(x0)` with a guess, which ended the program.
fn ended(guess: Guess, ending: End) -> Cell {
    let passenger = Passenger {
        guess,
        done: true,
        ending: Some(ending),
        ..issued(0x0001_0000, 0x0000_0067)
    };
    instruction_alone(passenger)
}

/// A load that was launched, guessed as taken.
fn out() -> Cell {
    let passenger = Passenger {
        guess: Guess::Taken,
        launched: true,
        ..issued(0x0001_0000, 0x0000_2003)
    };
    instruction_alone(passenger)
}

fn trap() -> End {
    End::Trap {
        cause: 0,
        pc: 0x0001_0000,
        detail: 2,
    }
}

fn operation(answer: Option<u32>) -> Option<Op> {
    Some(Op {
        pc: 0x0001_0004,
        instr: Instr::Load {
            kind: LoadKind::Word,
            rd: 1,
            rs1: 2,
            imm: 0,
        },
        a: 0,
        b: 0,
        answer,
    })
}

/// The lines of stages, from runs that were worked out by hand, and one for each further form; an empty stage has none.
/// Then the parts beside the stages, and the other lines.
const LINES: &str = "stage 1 complete | 00010000 next done - - x10=00000007 - | x10=00000007
stage 2 instruction | 00010000 next done x01=00000000 - x01=00000001 x01=00000001
stage 1 instruction | 00010004 next new x01=00000001 - x01=? -
stage 2 full | 00010000 next new x10=? - x05=? - | x10=00000000
stage 1 complete | 00010004 next dead x02=? x01=? - - | turn 00010008
stage 3 instruction | 00010004 next dead-out - - x01=? -
stage 2 result | turn 00010008
stage 32 result | halt
stage 4 instruction | 00010000 to:000000ab trap - - - -
stage 8 instruction | 00010000 wait exit - - - -
stage 5 instruction | 00010000 taken out - - - -
fetch 00010008
fetch wait
siding 1 00010004 -
siding 0 - 00010004*
retire 1 00010000 00700513 x10=00000007
move 12 slide 0 1
moves 10
meets 3
kills 2
dead 0
";

const RETIRED: Retired = Retired {
    pc: 0x0001_0000,
    word: 0x0070_0513,
    reg: 10,
    value: 7,
};

const TALLY: Tally = Tally {
    moves: 10,
    meets: 3,
    kills: 2,
    dead: 0,
};

/// Writes the lines of stages.
fn put_stages(rt: &impl Abort, report: &mut MemSink) {
    let stages = [
        (1, sent()),
        (2, owing()),
        (1, ready()),
        (2, unmet()),
        (1, dead()),
        (3, dead_out()),
        (2, result_alone(Packet::Turn(0x0001_0008))),
        (32, result_alone(Packet::Halt)),
        (4, ended(Guess::To(0xab), trap())),
        (8, ended(Guess::Wait, End::Exit(7))),
        (5, out()),
        (1, EMPTY),
    ];
    for (stage, cell) in &stages {
        assert!(rt; put_stage(*stage, cell, report).is_ok(), "put");
    }
}

/// Writes the lines of the parts beside the stages, and the other lines.
fn put_others(rt: &impl Abort, report: &mut MemSink) {
    let puts = [
        put_fetch(Fetch::Running(0x0001_0008), report),
        put_fetch(Fetch::Waiting, report),
        put_siding(1, &[operation(None), None], report),
        put_siding(0, &[None, operation(Some(7))], report),
        put_siding(2, &[None], report),
        put_retired(1, &RETIRED, report),
        put_move(12, Move::Slide(0, 1), report),
        put_tally(&TALLY, report),
    ];
    assert!(rt; puts.iter().all(|put| put.is_ok()), "put");
}

#[test]
fn lines(rt: HostRuntime) {
    let mut report = sink(&rt);
    put_stages(&rt, &mut report);
    put_others(&rt, &mut report);
    assert!(rt; report.bytes() == LINES.as_bytes(), "other lines");
}
