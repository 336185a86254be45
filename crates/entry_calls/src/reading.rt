// Registers to calls.
ghost use Rattle.std.specs.Prelude.{◌≡◌, ◌<◌, ◌≤◌, IfSome};
ghost use Rattle.entry_calls.specs.Calls as table;
ghost use Rattle.entry_calls.specs.Calls.{IsCall, IsSize, call_of, found, services, accesses, others, operations, cut as cut_to};

use crate::{AtomicOp, Call};
use rv_exec::Regs;

/// The low `size` bytes of a word.
pub fn cut(word: u64, size: u8) -> u64
    requires { IsSize size }
    ensures { result ≡ cut_to size word }
{
    match size {
        1 => word % 0x100,
        2 => word % 0x1_0000,
        4 => word % 0x1_0000_0000,
        _ => word,
    }
}

fn order(number: u64) -> u8
    ensures value { result ≡ table.order number }
    ensures known { result ≤ 5 }
{
    number.min(5) as u8
}

fn access(regs: &Regs, size: u32, read: bool) -> Call
    ensures { result ≡ table.access size read regs.now }
{
    Call::Access {
        addr: regs.get(10),
        size,
        read,
    }
}

fn range(regs: &Regs, read: bool) -> Call
    ensures value { result ≡ table.range read regs.now }
    ensures call { IsCall result }
{
    Call::Access {
        addr: regs.get(10),
        size: regs.get(11).min(0x1_0000) as u32,
        read,
    }
}

fn is_read_lock(regs: &Regs) -> bool
    ensures { result ≡ table.is_read_lock regs.now }
{
    (regs.get(11) >> 3) % 2 == 1
}

fn service(number: u64, regs: &Regs) -> Option<Call>
    ensures value { result ≡ found services number regs.now }
    ensures call { IfSome result IsCall }
{
    match number {
        1 => Some(Call::Put {
            value: regs.get(10),
            count: regs.get(11).min(8) as u8,
        }),
        2 => Some(Call::Exit {
            status: (regs.get(10) % 0x100) as u8,
        }),
        3 => Some(Call::Create {
            pc: regs.get(10),
            arg: regs.get(11),
            sp: regs.get(12),
        }),
        4 => Some(Call::ThreadExit),
        5 => Some(Call::Join { tid: regs.get(10) }),
        6 => Some(Call::Yield),
        _ => None,
    }
}

fn announced(number: u64, regs: &Regs) -> Option<Call>
    ensures value { result ≡ found accesses number regs.now }
    ensures call { IfSome result IsCall }
{
    match number {
        16 => Some(access(regs, 1, true)),
        17 | 26 => Some(access(regs, 2, true)),
        18 | 27 => Some(access(regs, 4, true)),
        19 | 28 => Some(access(regs, 8, true)),
        20 | 29 => Some(access(regs, 16, true)),
        21 => Some(access(regs, 1, false)),
        22 | 30 => Some(access(regs, 2, false)),
        23 | 31 => Some(access(regs, 4, false)),
        24 | 32 => Some(access(regs, 8, false)),
        25 | 33 => Some(access(regs, 16, false)),
        34 => Some(range(regs, true)),
        35 => Some(range(regs, false)),
        _ => None,
    }
}

fn other(number: u64, regs: &Regs) -> Option<Call>
    ensures value { result ≡ found others number regs.now }
    ensures call { IfSome result IsCall }
{
    let addr = regs.get(10);
    match number {
        36 => Some(Call::Enter {
            pc: addr.wrapping_sub(4),
        }),
        37 => Some(Call::Leave),
        38 => Some(access(regs, 8, false)),
        39 => Some(access(regs, 8, true)),
        40 => Some(Call::Acquire { addr }),
        41 => Some(Call::Release { addr }),
        42 => Some(Call::MutexCreate),
        43 => Some(Call::MutexDestroy { addr }),
        44 => Some(Call::PostLock {
            addr,
            read: is_read_lock(regs),
        }),
        45 => Some(Call::PreUnlock {
            addr,
            read: is_read_lock(regs),
        }),
        46 => Some(Call::Fence),
        _ => None,
    }
}

fn load(regs: &Regs, size: u8) -> Call
    requires { IsSize size }
    ensures value { result ≡ table.load size regs.now }
    ensures call { IsCall result }
{
    Call::Atomic {
        op: AtomicOp::Load,
        size,
        addr: regs.get(10),
        value: 0,
        expected: 0,
        order: order(regs.get(11)),
        fail_order: 0,
    }
}

fn with_value(op: AtomicOp, regs: &Regs, size: u8) -> Call
    requires { IsSize size }
    ensures value { result ≡ table.with_value op size regs.now }
    ensures call { IsCall result }
{
    Call::Atomic {
        op,
        size,
        addr: regs.get(10),
        value: cut(regs.get(11), size),
        expected: 0,
        order: order(regs.get(12)),
        fail_order: 0,
    }
}

fn compare(regs: &Regs, size: u8) -> Call
    requires { IsSize size }
    ensures value { result ≡ table.compare size regs.now }
    ensures call { IsCall result }
{
    Call::Atomic {
        op: AtomicOp::Compare,
        size,
        addr: regs.get(10),
        value: cut(regs.get(12), size),
        expected: cut(regs.get(11), size),
        order: order(regs.get(13)),
        fail_order: order(regs.get(14)),
    }
}

fn atomic(operation: u64, regs: &Regs, size: u8) -> Option<Call>
    requires { IsSize size }
    ensures value { result ≡ found (operations size) operation regs.now }
    ensures call { IfSome result IsCall }
{
    match operation {
        0 => Some(load(regs, size)),
        1 => Some(with_value(AtomicOp::Store, regs, size)),
        2 => Some(with_value(AtomicOp::Exchange, regs, size)),
        3 => Some(with_value(AtomicOp::Add, regs, size)),
        4 => Some(with_value(AtomicOp::Sub, regs, size)),
        5 => Some(with_value(AtomicOp::And, regs, size)),
        6 => Some(with_value(AtomicOp::Or, regs, size)),
        7 => Some(with_value(AtomicOp::Xor, regs, size)),
        8 => Some(compare(regs, size)),
        _ => None,
    }
}

/// The call that the registers tell: the number stands in x17, the arguments in x10, x11 and so on.
/// `None` comes exactly where the call table has no such number.
#[tactic(auto, unfolding(crate::specs::Calls::call_of))]
pub fn read_call(regs: &Regs) -> Option<Call>
    ensures value { result ≡ call_of regs.now }
    ensures call { IfSome result IsCall }
{
    let number = regs.get(17);
    match number {
        0..=15 => service(number, regs),
        16..=35 => announced(number, regs),
        36..=63 => other(number, regs),
        64..=79 => atomic(number - 64, regs, 1),
        80..=95 => atomic(number - 80, regs, 2),
        96..=111 => atomic(number - 96, regs, 4),
        112..=127 => atomic(number - 112, regs, 8),
        _ => None,
    }
}
