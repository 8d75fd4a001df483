//! Environment calls.

ghost use Rattle.std.specs.Prelude.{◌≡◌, [], Some, false, Ok, IfOk, OnErr, IsTrue, slice_index};
ghost use Rattle.cf_io.specs.Causes.{HasCause};
ghost use Rattle.mem_regions.specs.Ranges.{can_write};
ghost use Rattle.rv_machine.specs.Streams.{streams_of};
ghost use Rattle.rv_machine.specs.Call.{with_break, is_output as is_the_output, is_exit as exits, asks_input, asks_output};
ghost use Rattle.rv_machine.specs.Buffers.{Fills, FillsSome};
ghost use Rattle.rv_machine.specs.Faults.{input_served, output_served};
ghost use Rattle.rv_machine.specs.Acts.{Serves};

use crate::outcome::Served;
use cf_io::{Failed, Sink, Source, put_all, take_all};
use mem_regions::Regions;

/// EBADF: no such file is open.
const BAD_FILE: u32 = 0xffff_fff7;

/// EFAULT: the buffer is not in memory.
const BAD_ADDRESS: u32 = 0xffff_fff2;

/// ENOSYS: there is no call with this number.
const NO_SUCH_CALL: u32 = 0xffff_ffda;

/// Moves bytes from the input to the start of the buffer until it is full or the input is at its end, and returns how
/// many.
fn fill<S: Source>(mem: &mut Regions, addr: u32, len: u32, input: &mut S) -> Result<usize, Failed>
    requires { IsTrue (can_write mem.old addr len) }
    ensures ok { IfOk result (λ n.
        Fills addr len mem.old mem.new (S.left input.old) (S.left input.new) n) }
    ensures err { OnErr result
        (FillsSome addr len mem.old mem.new (S.left input.old) (S.left input.new)) }
    ensures cause { HasCause (S.faults input.old) (S.faults input.new) result }
{
    take_all(input, mem.writable(addr, len))
}

/// read(fd, addr, len)
fn read<S: Source>(regs: &[u32; 32], mem: &mut Regions, input: &mut S) -> Served
    requires { slice_index regs.now 17 ≡ 63 }
    ensures serves { Serves regs.now mem.old mem.new
        (streams_of (S.left input.old) (Some [])) (streams_of (S.left input.new) (Some [])) result }
    ensures input { HasCause (S.faults input.old) (S.faults input.new) (input_served result) }
    ensures output { output_served result ≡ Ok tt }
    ensures asked { asks_input regs.now mem.old ≡ false → input.new ≡ input.old }
{
    let (addr, len) = (regs[11], regs[12]);
    if regs[10] != 0 {
        return Served::Value(BAD_FILE);
    }
    if len == 0 {
        return Served::Value(0);
    }
    if !mem.is_writable(addr, len) {
        return Served::Value(BAD_ADDRESS);
    }
    match fill(mem, addr, len, input) {
        Ok(count) => Served::Value(count as u32),
        Err(_) => Served::ReadFault,
    }
}

/// Whether the file is the output.
fn is_output(fd: u32) -> bool
    ensures { result ≡ is_the_output fd }
{
    fd == 1 || fd == 2
}

/// write(fd, addr, len)
fn write<K: Sink>(regs: &[u32; 32], mem: &Regions, output: &mut K) -> Served
    requires { slice_index regs.now 17 ≡ 64 }
    ensures serves { Serves regs.now mem.now mem.now
        (streams_of (Some []) (K.written output.old)) (streams_of (Some []) (K.written output.new)) result }
    ensures input { input_served result ≡ Ok tt }
    ensures output { HasCause (K.faults output.old) (K.faults output.new) (output_served result) }
    ensures asked { asks_output regs.now mem.now ≡ false → output.new ≡ output.old }
{
    let (addr, len) = (regs[11], regs[12]);
    if !is_output(regs[10]) {
        return Served::Value(BAD_FILE);
    }
    if len == 0 {
        return Served::Value(0);
    }
    match mem.part(addr, len) {
        Some(bytes) => match put_all(output, bytes) {
            Ok(()) => Served::Value(len),
            Err(_) => Served::WriteFault,
        },
        None => Served::Value(BAD_ADDRESS),
    }
}

/// Whether the number is that of exit or of exit_group.
fn is_exit(number: u32) -> bool
    ensures { result ≡ exits number }
{
    number == 93 || number == 94
}

/// brk(addr): moves the break to the address if that is allowed, and returns the break.
#[tactic(auto, unfolding(crate::specs::Call::with_break))]
fn move_break(mem: &mut Regions, addr: u32) -> u32
    ensures memory { mem.new ≡ with_break addr mem.old }
    ensures value { result ≡ mem.new.program_break }
{
    // The heap is the lower half of the stack's region.
    if (0x7f00_0000..=0x7f08_0000).contains(&addr) {
        mem.set_brk(addr);
    }
    mem.brk()
}

/// Answers one environment call: its number is in x17, its arguments are in x10 and the registers after it.
///
/// 63 and 64 (`read` and `write`) move bytes from the input (file 0) and to the output (files 1 and 2), directly to and
/// from the buffer. A read asks the input until the buffer is full or the input is at its end. 93 and 94 (`exit` and
/// `exit_group`) end the program with the low eight bits of x10. 214 (`brk`) moves the program break within the heap
/// and returns it. Any other number returns -38. The numbers and the errors are those of Linux on RISC-V.
///
/// After `ReadFault` the bytes taken so far are at the start of the buffer, and its old bytes follow them; after
/// `WriteFault` a prefix of the buffer's bytes was written.
pub fn serve<S: Source, K: Sink>(
    regs: &[u32; 32],
    mem: &mut Regions,
    input: &mut S,
    output: &mut K,
) -> Served
    ensures serves { Serves regs.now mem.old mem.new
        (streams_of (S.left input.old) (K.written output.old))
        (streams_of (S.left input.new) (K.written output.new)) result }
    ensures input { HasCause (S.faults input.old) (S.faults input.new) (input_served result) }
    ensures output { HasCause (K.faults output.old) (K.faults output.new) (output_served result) }
    ensures input_asked { asks_input regs.now mem.old ≡ false → input.new ≡ input.old }
    ensures output_asked { asks_output regs.now mem.old ≡ false → output.new ≡ output.old }
{
    let number = regs[17];
    if number == 63 {
        read(regs, mem, input)
    } else if number == 64 {
        write(regs, mem, output)
    } else if is_exit(number) {
        Served::Exit((regs[10] % 256) as u8)
    } else if number == 214 {
        Served::Value(move_break(mem, regs[10]))
    } else {
        Served::Value(NO_SUCH_CALL)
    }
}
