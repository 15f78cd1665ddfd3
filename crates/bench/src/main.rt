// The bench program: reads a script, hands it over, and writes what it gets.
#![tactic(auto)]

ghost use Rattle.std.specs.Prelude.{◌≡◌, ◌≤◌, length, IfOk};

use ground::answers;
use script::starting::Run;
use std::io::{self, Read};

// One byte more than the longest script, so that a longer one is seen.
fn in_buffer() -> [u8; 65537]
    ensures { 65537 ≡ length result }
{
    [0; 65537]
}

fn out_buffer() -> [u8; 65536]
    ensures { 65536 ≡ length result }
{
    [0; 65536]
}

// Reads until the buffer is full or nothing more comes: how many bytes came.
fn read_full(from: &mut impl Read, buffer: &mut [u8]) -> io::Result<usize>
    ensures { IfOk result (λ size. size ≤ length buffer.new) }
{
    let mut size: usize = 0;
    while size < buffer.len() {
        let more = from.read(&mut buffer[size..])?;
        if more == 0 {
            break;
        }
        size += more;
    }
    Ok(size)
}

// Turn after turn until the run is finished. There are turns enough for the longest script.
fn write_turns(rt: &impl Print, input: &[u8], first: Run, out: &mut [u8]) -> io::Result<()> {
    let mut run = first;
    for _ in 0..65537 {
        if run.finished {
            break;
        }
        let put = script::put_lines(input, run, out);
        rt.write_all(&out[..put.result as usize])?;
        run = put.run;
    }
    Ok(())
}

// The line of a script that is refused, and else all that its run puts.
fn write_output(rt: &impl Print, input: &[u8], out: &mut [u8]) -> io::Result<()> {
    let started = script::start(input);
    if started.answer != answers::DONE {
        let put = script::put_answer(started.answer, out);
        return rt.write_all(&out[..put.result as usize]);
    }
    write_turns(rt, input, started.run, out)
}

fn main(rt: HostRuntime) -> io::Result<()> {
    let mut input = in_buffer();
    let mut output = out_buffer();
    let size = read_full(&mut rt.reader(), &mut input)?;
    write_output(&rt, &input[..size], &mut output)
}
