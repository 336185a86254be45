// The texts that tell of a run.
ghost use Rattle.std.specs.Prelude.{◌≡◌, ◌++◌, IfOk};
ghost use Rattle.std.specs.List.{flat_map};
ghost use Rattle.report_text.specs.Texts.{report_text, summary_of};
ghost use Rattle.tsanrun_cli.specs.Texts.{made_line};
ghost use Rattle.tsanrun_cli.specs.Work.{bytes_of};

use report_text::{summary, text_of};
use run_record::{Finished, NoMemory};
use std::alloc::Global;
use symbol_lines::Frames;

/// The text of each report, in order, and then the last line.
pub fn report_texts<F: Frames>(
    alloc: Global,
    finished: &Finished,
    frames: &F,
) -> Result<Vec<Vec<u8>>, NoMemory>
    ensures { IfOk result (λ texts. flat_map bytes_of texts.items ≡ flat_map (report_text (F.frame_of frames.now)) finished.now.reports ++ summary_of finished.now) }
{
    let mut texts = Vec::new(alloc);
    for report in finished.reports.as_slice() {
        texts.push(text_of(alloc, report, frames)?)?;
    }
    texts.push(summary(alloc, finished)?)?;
    Ok(texts)
}

/// The line of a made program of so many bytes, and then the last line of its run.
pub fn made_texts(
    alloc: Global,
    seed: u32,
    size: u32,
    bytes: usize,
    finished: &Finished,
) -> Result<Vec<Vec<u8>>, NoMemory>
    ensures { IfOk result (λ texts. flat_map bytes_of texts.items ≡ made_line seed size bytes ++ summary_of finished.now) }
{
    let line = format!(in alloc; "gen: seed {seed}, size {size}, file {bytes} bytes\n")?;
    let mut texts = Vec::new(alloc);
    texts.push(line.into_bytes())?;
    texts.push(summary(alloc, finished)?)?;
    Ok(texts)
}
