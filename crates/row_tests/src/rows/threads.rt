// Programs of several threads, and each kind of call.
use super::*;
use std::test::Fail;

static THREADS: [Row<'static>; 6] = [
    Row {
        program: "main: N(a) Q X(0); a: T",
        out: b"\x01",
        summary: (0, 0, 0, 2, "exit 0"),
        ..ROW
    },
    Row {
        program: "main: J(0) Q J(9) Q X(0)",
        out: b"\xf0\xfd",
        summary: (0, 0, 0, 1, "exit 0"),
        ..ROW
    },
    Row {
        program: "main: E(write8,0) N(a) T; a: E(read8,0) T",
        summary: (0, 0, 0, 2, "all ended"),
        ..ROW
    },
    // Another thread's store ends a reservation: SC answers 1, and the word has that thread's byte.
    Row {
        program: "main: N(a) lui x8,0x1000 lr.d x0,(x8) m: addi x10,x0,1 addi x17,x0,5 ecall bne x10,x0,m addi x9,x0,7 sc.d x10,x9,(x8) ld x9,0(x8) add x10,x10,x9 Q X(0); a: lui x8,0x1000 addi x9,x0,32 sb x9,0(x8) T",
        out: b"\x21",
        summary: (0, 0, 0, 2, "exit 0"),
        ..ROW
    },
    // A compare exchange answers the old word, and stores where it was the expected one.
    Row {
        program: "main: E(atomic8_compare_exchange_val,3,0,200,5,0) Q E(atomic8_compare_exchange_val,3,0,9,5,0) Q E(atomic8_load,3,0) Q X(0)",
        out: b"\x00\xc8\xc8",
        summary: (0, 0, 0, 1, "exit 0"),
        ..ROW
    },
    Row {
        program: "main: m: E(func_entry,260) jal x0,m",
        summary: (0, 0, 0, 1, "fault 8 at 0x0000000000010020 by main thread"),
        status: 9,
        ..ROW
    },
];

#[test]
fn threads_and_calls_do_as_they_say(rt: HostRuntime) -> Result<(), Fail> {
    for row in THREADS.iter() {
        check_both(&rt, rt.alloc(), row)?;
    }
    Ok(())
}

// Four threads add 1,000 each to one word under a spin lock.
pub const COUNTER: &str = "
main:   addi x8,x0,3
m1:     N(child)
        addi x8,x8,-1
        bne  x8,x0,m1
        jal  x1,work
        addi x8,x0,3
m2:     addi x10,x8,0
        addi x17,x0,5
        ecall
        bne  x10,x0,m2
        addi x8,x8,-1
        bne  x8,x0,m2
        lui  x10,0x1000
        jal  x1,r8
        ld   x10,0(x10)
        addi x11,x0,2
        addi x17,x0,1
        ecall
        X(0)
child:  jal  x1,work
        T
work:   addi x18,x1,0
        addi x10,x18,0
        jal  x1,fe
        addi x19,x0,1000
        lui  x20,0x1000
w1:     addi x10,x20,8
        addi x11,x0,1
        addi x12,x0,2
        jal  x1,xc
        bne  x10,x0,w1
        addi x10,x20,8
        addi x11,x0,0
        jal  x1,pl
        addi x10,x20,0
        jal  x1,r8
        ld   x21,0(x20)
        addi x21,x21,1
        jal  x1,w8
        sd   x21,0(x20)
        addi x10,x20,8
        addi x11,x0,0
        jal  x1,pu
        addi x10,x20,8
        addi x11,x0,0
        addi x12,x0,3
        jal  x1,st
        addi x19,x19,-1
        bne  x19,x0,w1
        jal  x1,fx
        jalr x0,0(x18)
fe:     addi x17,x0,36  ecall  jalr x0,0(x1)
fx:     addi x17,x0,37  ecall  jalr x0,0(x1)
xc:     addi x17,x0,98  ecall  jalr x0,0(x1)
st:     addi x17,x0,97  ecall  jalr x0,0(x1)
pl:     addi x17,x0,44  ecall  jalr x0,0(x1)
pu:     addi x17,x0,45  ecall  jalr x0,0(x1)
r8:     addi x17,x0,19  ecall  jalr x0,0(x1)
w8:     addi x17,x0,24  ecall  jalr x0,0(x1)
";

#[test]
fn a_lock_keeps_a_count(rt: HostRuntime) -> Result<(), Fail> {
    let row = Row {
        program: COUNTER,
        form: Form::NAMED,
        out: b"\xa0\x0f",
        summary: (0, 0, 0, 4, "exit 0"),
        ..ROW
    };
    check_row(&rt, rt.alloc(), &row)
}
