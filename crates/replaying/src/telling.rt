// What is told of a run.
ghost use Rattle.std.specs.Prelude.{◌≡◌, ◌++◌, IfOk, OnOk};
ghost use Rattle.replaying.specs.Outputs.{text_length, told, all_told};

use runs::Answer;
use std::alloc::{AllocError, Global};

// Every answer on a line, and behind it the text that was written, if any.
pub fn tell_all(heap: Global, answers: &[Answer], texts: &[u8]) -> Result<Vec<u8>, AllocError>
    ensures { IfOk result (λ out. out.items ≡ all_told answers.now texts.now) }
{
    let mut out = Vec::new(heap);
    let mut rest = texts;
    for answer in answers {
        let (text, later) = rest.split_at(written(answer).min(rest.len()));
        tell(heap, &mut out, answer, text)?;
        rest = later;
    }
    Ok(out)
}

// How long the text is that was written.
fn written(answer: &Answer) -> usize
    ensures { result ≡ text_length answer.now }
{
    match answer {
        Answer::Writing(Ok(len)) => *len,
        _ => 0,
    }
}

fn tell(heap: Global, out: &mut Vec<u8>, answer: &Answer, text: &[u8]) -> Result<(), AllocError>
    ensures { OnOk result (out.new.items ≡ out.old.items ++ told answer.now text.now) }
{
    let line = format!(in heap; "{answer}\n")?;
    out.extend_from_slice(line.as_bytes())?;
    out.extend_from_slice(text)?;
    Ok(())
}
