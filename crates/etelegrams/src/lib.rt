// E-telegrams: reading the code of one, and composing the short answer to a request.
#![tactic(auto)]

ghost use Rattle.std.specs.Prelude.{◌≡◌};
ghost use Rattle.paper.specs.ETelegrams.{is_request, is_report, e_limit, e_reading, answering};
ghost use Rattle.etelegrams.specs.Answers.{e_reading_of, e_read_answer, answer_on};
ghost use Rattle.refusals.specs.Outcome.{Written};

use refusals::Refusal;

// What a telegram says: its code, whether that is a report's, and octet 9.
#[derive(Clone, Copy, Debug, PartialEq, Eq)]
pub struct EReading {
    pub code: u16,
    pub report: bool,
    pub status: u8,
}

// The longest telegram of a code.
pub fn e_limit(code: u16) -> usize
    ensures { result ≡ e_limit code }
{
    if code == 0x8A08 { 2110 } else { 1024 }
}

// The request codes of document 01: one chain of comparisons of 16 bits, of which a compiler makes several at a time.
fn is_request(code: u16) -> bool
    ensures { result ≡ is_request code }
{
    (code == 0x1007)
        | (code == 0x1012)
        | (code == 0x1013)
        | (code == 0x1015)
        | (code == 0x2001)
        | (code == 0x4002)
        | (code == 0x4007)
        | (code == 0x4009)
        | (code == 0x4011)
        | (code == 0x4013)
        | (code == 0x4015)
        | (code == 0x4020)
        | (code == 0x4047)
        | (code == 0x5003)
        | (code == 0x5007)
        | (code == 0x5009)
        | (code == 0x6002)
        | (code == 0x7001)
        | (code == 0x8002)
        | (code == 0x8003)
        | (code == 0x8007)
        | (code == 0x8008)
        | (code == 0x8009)
        | (code == 0x8010)
        | (code == 0x9001)
}

// A report's code is its request's plus 0A00.
fn is_report(code: u16) -> bool
    ensures { result ≡ is_report code }
{
    if code < 0x0A00 {
        return false;
    }
    is_request(code - 0x0A00)
}

// Reads the code, request or report, and octet 9. Refused: 21 for the length, 22 for a code that is neither.
pub fn e_read(telegram: &[u8]) -> Result<EReading, Refusal>
    ensures { e_read_answer result ≡ e_reading telegram.now }
{
    if telegram.len() < 9 {
        return Err(Refusal::ELength);
    }
    let code = octets::read16(telegram, 6) as u16;
    if e_limit(code) < telegram.len() {
        return Err(Refusal::ELength);
    }
    let status = telegram[8];
    if is_request(code) {
        return Ok(EReading {
            code,
            report: false,
            status,
        });
    }
    if !is_report(code) {
        return Err(Refusal::ECode);
    }
    Ok(EReading {
        code,
        report: true,
        status,
    })
}

// The answer to what was read: head, report code and status, 9 octets.
fn answer(read: EReading, head: &[u8], status: u8, out: &mut [u8]) -> Result<(), Refusal>
    ensures { Written (answer_on (e_reading_of read) head.now status out.old) out.old result out.new }
{
    if read.report {
        return Err(Refusal::AnswerToReport);
    }
    if head.len() != 6 {
        return Err(Refusal::HeadLength);
    }
    if out.len() < 9 {
        return Err(Refusal::OutputShort);
    }
    octets::copy_over(out, 0, head);
    octets::write16(out, 6, read.code as u32 + 0x0A00);
    out[8] = status;
    Ok(())
}

// Answers a request: a head, the report's code and a status into the first 9 octets of `out`; the rest stays. Refused: 21 to 25.
pub fn e_answer(telegram: &[u8], head: &[u8], status: u8, out: &mut [u8]) -> Result<(), Refusal>
    ensures { Written (answering telegram.now head.now status out.old) out.old result out.new }
{
    let read = e_read(telegram)?;
    answer(read, head, status, out)
}
