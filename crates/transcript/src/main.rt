// Reads a journal on standard input and writes its transcript to standard output.
#![tactic(auto)]

ghost use Rattle.std.specs.Prelude.{◌≡◌, ◌+◌, ◌≤◌, IfOk, length};

use journal::Transcript;
use std::io::{self, Read, Stderr, Stdin, Stdout, Write};

// How many bytes of each stream are read and written at once.
const BUFFER: usize = 65536;

// A transcript, and how many bytes of the input were used for it.
#[derive(Clone, Copy)]
struct Poured {
    transcript: Transcript,
    used: usize,
}

// Where the transcript goes, and the space in which it is made: fixed memory.
#[derive(Drop)]
struct Output {
    packet: [u8; Transcript::BUFFER],
    space: [u8; BUFFER],
    stdout: Stdout,
}

impl Output {
    // Fills the space and writes it, until the input is used up or reading has ended.
    fn pour(&mut self, from: Transcript, input: &[u8]) -> io::Result<Poured>
        ensures { IfOk result (λ p. p.transcript.left + p.used ≡ from.left) }
    {
        let mut transcript = from;
        let mut used = 0;
        // a fill uses any number of bytes, so the input is not walked by an iterator
        loop {
            let filled = transcript.fill(&input[used..], &mut self.packet, &mut self.space);
            transcript = filled.transcript;
            used += filled.used;
            self.stdout.write_all(&self.space[..filled.count])?;
            if filled.count == 0 || !transcript.is_due() {
                return Ok(Poured { transcript, used });
            }
        }
    }
}

// Reads into the buffer. Answers how many bytes, 0 at the end; where reading fails, it says so and takes that for the end.
fn read(stdin: &mut Stdin, stderr: &mut Stderr, buffer: &mut [u8]) -> usize
    ensures { result ≤ length buffer.new }
{
    match stdin.read(buffer) {
        Ok(n) => n,
        Err(_) => {
            let _ = stderr.write_all(
                b"transcript: cannot read standard input; the journal is taken to end here\n",
            );
            0
        }
    }
}

// Reads until the journal ends or is broken, and before each read writes all that is due.
fn run(stdin: &mut Stdin, stderr: &mut Stderr, output: &mut Output) -> io::Result<()> {
    let mut input = [0u8; BUFFER];
    let mut transcript = Transcript::start();
    loop {
        let n = read(stdin, stderr, &mut input);
        if n == 0 {
            let stopped = transcript.stop(&mut output.packet);
            output.pour(stopped, &[])?;
            return Ok(());
        }
        let poured = output.pour(transcript, &input[..n])?;
        transcript = poured.transcript;
        if poured.used < n || transcript.is_done() {
            return Ok(());
        }
    }
}

fn main(rt: HostRuntime) {
    let mut stdin = rt.stdin();
    let mut stderr = rt.stderr();
    let mut output = Output {
        packet: [0u8; Transcript::BUFFER],
        space: [0u8; BUFFER],
        stdout: rt.stdout(),
    };
    if run(&mut stdin, &mut stderr, &mut output).is_err() {
        let _ = stderr.write_all(
            b"transcript: cannot write to standard output; the transcript is cut short\n",
        );
    }
}
