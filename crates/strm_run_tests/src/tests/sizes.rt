//! Scripts with each number of sections, and long scripts.
use super::faulty::{Choppy, choppy_writer};
use super::runs::{LOOKS, expect_count, expect_text, written};
use std::alloc::{AllocError, Global};
use std::hint::spin_loop;
use std::process::Abort;
use std::sync::Wait;
use std::sync::atomic::{AtomicU32, Ordering};
use std::thread::Threads;
use strm_run::{Mode, RunFault, Watched, run};
use strm_script::{Fault, Kind, MOST_SCRIPT_BYTES};
use strm_shared::{Gate, MOST_WORKERS, OpenGate};

// Four lines of a configuration.
const HEADER: &[u8] = b"pool 1 8\nclass 16 4\nqueue 10 4 s -\nbufcalls 2 1\n";

const REPORT: &[u8] = b"blocks free=8 queued=0 held=0 total=8\ndata size=16 free=4 total=4\n\
      queue 0 msgs=0 bytes=0 read=1 noenable=0 enabled=0\nrun -\nwishes -\n";

// A script with this number of sections, each with one line: line 6 for worker 0, line 8 for worker 1, and so on.
fn sections(alloc: Global, workers: u8) -> Result<Vec<u8>, AllocError> {
    let mut script = Vec::from_slice(alloc, HEADER)?;
    for _ in 0..workers {
        script.extend_from_slice(b"worker\ncensus\n")?;
    }
    Ok(script)
}

// The text of that script if the last worker is first.
fn text_backwards(alloc: Global, workers: u8) -> Result<Vec<u8>, AllocError> {
    let mut text = Vec::new(alloc);
    for ahead in 1..=workers {
        let worker = workers - ahead;
        let line = u32::from(worker) * 2 + 6;
        let shown = format!(in alloc; "{worker}:{line} census 8 0 0\n")?;
        text.extend_from_slice(shown.as_bytes())?;
    }
    text.extend_from_slice(REPORT)?;
    Ok(text)
}

// A gate that lets the last worker pass first. It counts the lines that were executed, and those that waited in vain.
#[derive(Drop)]
struct Backwards {
    workers: u8,
    served: AtomicU32,
    missed: AtomicU32,
}

impl Backwards {
    fn new(workers: u8) -> Backwards {
        Backwards {
            workers,
            served: AtomicU32::new(0),
            missed: AtomicU32::new(0),
        }
    }

    // Waits until all workers after this one are done, and says whether that came in time.
    fn comes(&self, worker: u8) -> bool {
        let turn = u32::from(self.workers).wrapping_sub(u32::from(worker).wrapping_add(1));
        for _ in 0..LOOKS {
            if self.served.load(Ordering::SeqCst) == turn {
                return true;
            }
            spin_loop();
        }
        false
    }
}

impl Gate for Backwards {
    fn before(&self, worker: u8, _line: u32) {
        if !self.comes(worker) {
            self.missed.fetch_add(1, Ordering::SeqCst);
        }
    }

    fn after(&self, _worker: u8, _line: u32) {
        self.served.fetch_add(1, Ordering::SeqCst);
    }
}

// Whatever the number of sections is, each has its own thread, and the text has the order in which lines were executed.
#[test]
fn each_number_of_workers(rt: HostRuntime) {
    for workers in 2..=MOST_WORKERS as u8 {
        let gate = Backwards::new(workers);
        let script = sections(rt.alloc(), workers).expect(&rt, "memory");
        let wanted = text_backwards(rt.alloc(), workers).expect(&rt, "memory");
        let text = written(&rt, Mode::Workers, &gate, &script);
        expect_text(&rt, &text, &wanted);
        expect_count(&rt, &gate.served, u32::from(workers));
        expect_count(&rt, &gate.missed, 0);
    }
}

// The result of a run of a script of any size, and what it wrote.
fn ran(
    rt: &(impl AllocGlobal + Threads + Wait + Sync),
    mode: Mode,
    script: &[u8],
) -> (Result<(), RunFault>, Choppy) {
    let mut writer = choppy_writer(rt.alloc(), usize::MAX, None);
    let ran = run(
        rt,
        mode,
        MOST_SCRIPT_BYTES,
        &OpenGate,
        &mut Watched::new(script),
        &mut Watched::new(&mut writer),
    );
    (ran, writer)
}

// The number of lines of the long script.
const LINES: usize = 65_536;

// A script of one section with that number of lines.
fn long_script(alloc: Global) -> Result<Vec<u8>, AllocError> {
    let mut script = Vec::from_slice(alloc, HEADER)?;
    script.extend_from_slice(b"worker\n")?;
    for _ in 0..LINES {
        script.extend_from_slice(b"census\n")?;
    }
    Ok(script)
}

// The number of lines of a text.
fn lines_of(text: &[u8]) -> usize {
    text.iter().filter(|byte| **byte == b'\n').count()
}

// The end of that script's text, which has more than a million bytes.
const TAIL: &[u8] =
    b"\n0:65541 census 8 0 0\nblocks free=8 queued=0 held=0 total=8\ndata size=16 free=4 total=4\n\
      queue 0 msgs=0 bytes=0 read=1 noenable=0 enabled=0\nrun -\nwishes -\n";

// Texts and sections have no limit of their own.
#[test]
fn a_long_text(rt: HostRuntime) {
    let script = long_script(rt.alloc()).expect(&rt, "memory");
    for mode in [Mode::Serial, Mode::Workers] {
        let (ran, writer) = ran(&rt, mode, &script);
        assert!(rt; ran == Ok(()), "{ran:?}");
        let text = writer.got.as_slice();
        assert_eq!(rt; lines_of(text), 65_541);
        assert!(rt;
            text.starts_with(b"0:6 census 8 0 0\n0:7 census 8 0 0\n") && text.ends_with(TAIL)
        );
    }
}

// A script may have more lines than it may have command lines.
#[test]
fn a_long_script(rt: HostRuntime) {
    let script = vec![in rt.alloc(); b'\n'; 2_097_152].expect(&rt, "memory");
    let missing = Fault {
        line: 2_097_153,
        kind: Kind::Missing,
    };
    let (ran, _) = ran(&rt, Mode::Serial, &script);
    assert!(rt; ran == Err(RunFault::Script(missing)), "{ran:?}");
}
