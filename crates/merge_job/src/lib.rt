// The merge program of document 01 as a library: one run reads a job, merges its images and writes the image of all.
#![tactic(auto)]

ghost use Rattle.std.specs.Prelude.{◌≡◌, [], get_or, IfOk};
ghost use Rattle.std.specs.Io.{ReadsAtMost};
ghost use Rattle.job.specs.Job.{job_of, places_of};
ghost use Rattle.report.specs.Report.{refused_text};
ghost use Rattle.merge_job.specs.declared.Fault.TheVariants.{Io, Refused};
ghost use Rattle.merge_job.specs.Merge.{front_no, large_no, join_of, take_of};
ghost use Rattle.merge_job.specs.Promised.{fault_no, fault_place, answer_no, taken_out, Took, TookSome, Ran, Lists, Opened, Asked, Whole, Puts, Finished, Reported};

use files::Cut;
use image_header::Image;
use job::Places;
use model::{Refusal, Sketch};
use std::io;
use std::io::{Read, Write};
use std::rt::Files;
use text::Text;

// The longest image that is looked at, in bytes, and the largest lg_k that there is memory for.
const LONGEST: usize = 40000;

const LARGEST: u8 = 12;

// Why a job, a file or the output is refused.
#[derive(Clone, Copy, Debug, PartialEq, Eq)]
pub enum Fault {
    Long,
    Job,
    Io,
    Large,
    Refused(Refusal),
}

impl Fault {
    // Its number in the table of refusals, to which the program adds 17 to 20.
    pub fn number(self) -> u8
        ensures { result ≡ fault_no self }
    {
        match self {
            Fault::Long => 17,
            Fault::Job => 18,
            Fault::Io => 19,
            Fault::Large => 20,
            Fault::Refused(refusal) => refusal.number(),
        }
    }

    // Its place, or 0 where it has none.
    pub fn place(self) -> u32
        ensures { result ≡ fault_place self }
    {
        match self {
            Fault::Refused(refusal) => refusal.place(),
            _ => 0,
        }
    }
}

impl From<Refusal> for Fault {
    ghost from_gives = { λ refusal fault. fault ≡ Refused refusal };

    fn from(refusal: Refusal) -> Fault {
        Fault::Refused(refusal)
    }
}

// The report tells no more of a read or a write that failed.
impl From<io::Error> for Fault {
    ghost from_gives = { λ _ fault. fault ≡ Io };

    fn from(_e: io::Error) -> Fault {
        Fault::Io
    }
}

impl From<Cut> for Fault {
    ghost from_gives = { λ _ fault. fault ≡ Io };

    fn from(cut: Cut) -> Fault {
        Fault::from(cut.why)
    }
}

// LONG, and the header's own refusals.
fn read_front(image: &[u8]) -> Result<Image<'_>, Fault>
    ensures answer { answer_no result ≡ front_no image.now }
    ensures ok { IfOk result (λ read. read.bytes.now ≡ image.now) }
{
    if image.len() > LONGEST {
        return Err(Fault::Long);
    }
    Ok(image_header::read(image)?)
}

// MODE, LGK, LARGE.
fn check_large(kind: u8, lg_k: u8) -> Result<(), Fault>
    ensures { answer_no result ≡ large_no kind lg_k }
{
    image_check::form(kind, lg_k)?;
    if lg_k > LARGEST {
        return Err(Fault::Large);
    }
    Ok(())
}

fn join(
    target: Sketch,
    tregs: &mut [u8],
    image: Image,
    regs: &mut [u8],
    aux: &mut [u32],
    scratch: &mut [u32],
) -> Result<Sketch, Fault>
    requires { Opened image regs.old aux.old scratch.old }
    ensures { taken_out target result tregs.new ≡ join_of target tregs.old image.entry.bytes.now }
{
    let source = image_load::load(image, regs, aux, scratch)?;
    let merged = sketch::merge(target, tregs, source, regs, aux)?;
    Ok(merged)
}

// Opens an image and merges it into the target. The memory is large enough for any that is not LARGE, so NO_ROOM can't occur.
pub fn take(target: Sketch, tregs: &mut [u8], image: &[u8]) -> Result<Sketch, Fault>
    ensures { taken_out target result tregs.new ≡ take_of target tregs.old image.now }
{
    let image = read_front(image)?;
    let h = image.header;
    check_large(h.kind, h.lg_k)?;
    let n = shape::bytes_of(h.kind, h.lg_k);
    let mut regs = [0u8; 4096];
    let mut aux = [0u32; 8192];
    let mut scratch = [0u32; 8192];
    join(target, tregs, image, &mut regs[..n], &mut aux, &mut scratch)
}

// What came of a file. Only the bytes that came are passed on: what the buffer has behind them is not the image's.
fn take_got(
    target: Sketch,
    tregs: &mut [u8],
    got: Result<usize, Cut>,
    image: &[u8],
) -> Result<Sketch, Fault>
    requires { ReadsAtMost got image.now }
    ensures { Took target tregs.old got image.now (taken_out target result tregs.new) }
{
    let n = got?;
    take(target, tregs, &image[..n])
}

// Image i of the job, from 0, through the buffer: no other path may be handed to the reader.
fn take_file<F: Files>(
    rt: &F,
    target: Sketch,
    tregs: &mut [u8],
    job: &[u8],
    i: usize,
    path: &[u8],
    image: &mut [u8; 40001],
) -> Result<Sketch, Fault>
    requires { path.now ≡ get_or (job_of job.now).ins i [] }
    ensures { TookSome target tregs.old image.new (taken_out target result tregs.new) }
{
    let got = files::load(rt, path, image);
    take_got(target, tregs, got, image)
}

// A file that is refused: why, and its position from 1.
#[derive(Clone, Copy)]
struct Stopped {
    fault: Fault,
    file: usize,
}

// The files of the `in=` lines from a place on, in turn.
fn merge_all<F: Files>(
    rt: &F,
    target: Sketch,
    tregs: &mut [u8],
    job: &[u8],
    first: usize,
    files: usize,
) -> Result<Sketch, Stopped>
    requires { Lists job.now first files }
    ensures { Ran files target tregs.old result tregs.new }
{
    let mut image = [0u8; 40001];
    let mut sketch = target;
    let mut at = first;
    for i in 0..files {
        let path = job::path_in(job, at, b"in=").unwrap();
        sketch = match take_file(rt, sketch, tregs, job, i, path, &mut image) {
            Ok(merged) => merged,
            Err(fault) => return Err(Stopped { fault, file: i + 1 }),
        };
        at += path.len() + 4;
    }
    Ok(sketch)
}

// The report of a fault, with its file's position, or 0 for the job and the output.
fn refused(fault: Fault, file: usize) -> Text<160>
    ensures { result ≡ refused_text (fault_no fault) (fault_place fault) file }
{
    report::refused(fault.number(), fault.place(), file)
}

// No other bytes and no other path may be handed to the writer.
fn put<F: Files>(rt: &F, job: &[u8], path: &[u8], image: &[u8]) -> io::Result<()>
    requires { Puts job.now path.now image.now }
{
    files::replace(rt, path, image)
}

// The image of all, which always fits into 40 bytes and one for each register, to the path of the `out=` line; and the report.
fn finish<F: Files>(rt: &F, sketch: Sketch, regs: &[u8], job: &[u8], places: Places) -> Text<160>
    requires { Whole job.now sketch regs.now × (places ≡ places_of (job_of job.now)) }
    ensures { Finished places.files places.lg_k regs.now result }
{
    let mut image = [0u8; 4136];
    let len = image_write::write(sketch, regs, &[], &mut image).unwrap();
    let path = job::path_in(job, places.last, b"out=").unwrap();
    match put(rt, job, path, &image[..len]) {
        Ok(()) => report::merged(places.files, places.lg_k, regs),
        Err(_) => refused(Fault::Io, 0),
    }
}

// A job that is one, in registers of its size.
fn run_in<F: Files>(rt: &F, regs: &mut [u8], job: &[u8], places: Places) -> Text<160>
    requires { Asked job.now places regs.old }
    ensures { Reported job.now result }
{
    let empty = sketch::start(8, places.lg_k, regs, &mut []).unwrap();
    match merge_all(rt, empty, regs, job, places.first, places.files) {
        Ok(all) => finish(rt, all, regs, job, places),
        Err(stopped) => refused(stopped.fault, stopped.file),
    }
}

// The report of a text as a job.
pub fn run_job<F: Files>(rt: &F, job: &[u8]) -> Text<160>
    ensures { Reported job.now result }
{
    let Some(places) = job::parse(job) else {
        return refused(Fault::Job, 0);
    };
    let mut regs = [0u8; 4096];
    let k = shape::bytes_of(8, places.lg_k);
    run_in(rt, &mut regs[..k], job, places)
}

// Nothing but the report of the job may be told.
fn tell<W: Write>(to: &mut W, job: &[u8], report: &[u8])
    requires { Reported job.now report.now }
{
    let _ = to.write_all(report);
}

// One run: the job comes from a reader, and the report goes to a writer; where that fails there is nobody to tell. A job that fills the
// buffer is too long to be one.
pub fn run<F: Files, R: Read, W: Write>(rt: &F, from: &mut R, to: &mut W) {
    let mut job = [0u8; 4097];
    let Ok(len) = files::read_all(from, &mut job) else {
        let report = refused(Fault::Io, 0);
        let _ = to.write_all(report.as_slice());
        return;
    };
    let report = run_job(rt, &job[..len]);
    tell(to, &job[..len], report.as_slice());
}
