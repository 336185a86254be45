// The order in which threads take mutexes, by the command `locks`.
use super::*;
use tsanrun_cli::End;

/// A program, what `locks p` puts on the output, and its status.
#[derive(Clone, Copy)]
struct Order<'a> {
    program: &'a str,
    out: &'a [u8],
    status: u8,
}

static ORDERS: [Order<'static>; 3] = [
    // Two threads take two mutexes one way and the other. Neither waits for long.
    Order {
        program: "main: N(a) E(post_lock,8) E(post_lock,16) E(pre_unlock,16) E(pre_unlock,8) T; a: E(post_lock,16) E(post_lock,8) E(pre_unlock,8) E(pre_unlock,16) T",
        out: b"lock cycle: 0x0000000001000008 0x0000000001000010\n  0x0000000001000008 then 0x0000000001000010 by main thread\n  0x0000000001000010 then 0x0000000001000008 by thread T1\nlocks: 1 cycles\n",
        status: 66,
    },
    // Both take them the same way.
    Order {
        program: "main: N(a) E(post_lock,8) E(post_lock,16) E(pre_unlock,16) E(pre_unlock,8) T; a: E(post_lock,8) E(post_lock,16) E(pre_unlock,16) E(pre_unlock,8) T",
        out: b"locks: 0 cycles\n",
        status: 0,
    },
    // A race, and no mutex.
    Order {
        program: "main: N(a) E(write8,0) T; a: E(write8,0) T",
        out: b"locks: 0 cycles\n",
        status: 0,
    },
];

#[test]
fn orders_of_mutexes_are_told(rt: HostRuntime) -> Result<(), Fail> {
    let alloc = rt.alloc();
    for order in ORDERS.iter() {
        let file = assemble(alloc, order.program, &Form::PLAIN)?;
        let answer = call(alloc, &["locks", "p"], &file)?;
        check(&rt, alloc, &answer, order.out, "", order.status)?;
        assert_eq!(rt; answer.ended.end, End::Done);
    }
    Ok(())
}
