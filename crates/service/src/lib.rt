// A service block: its number, its payload, how it is read, written and pushed to.
#![tactic(auto)]

ghost use Rattle.std.specs.Prelude.{◌≡◌, ◌==◌, length, OnErr};
ghost use Rattle.caption.specs.Answers.{outcome};
ghost use Rattle.model.specs.Said.{says, after, mapped};
ghost use Rattle.model.specs.Block.{new_block, read_block, part_in, block_length, block_room};

use basics::{MOST_NUMBER, MOST_PAYLOAD, put_bytes};
use caption::Refusal;

/// A block: the first `len` bytes of `payload` are its payload. One that breaks a limit can be
/// built; every call on it is refused with `BadValue`.
#[derive(Clone, Copy, Debug, PartialEq, Eq)]
pub struct Service {
    pub number: u8,
    pub len: usize,
    pub payload: [u8; 31],
}

impl Service {
    ghost use Rattle.service.specs.Service.{block_of, over, blank, valid_service};
    ghost use Rattle.service.specs.Service.{asked, pushed, laid, bytes_of, written};

    /// A block without payload [B11].
    pub fn new(service_no: u8) -> Result<Service, Refusal>
        ensures answer { mapped block_of (outcome result) ≡ new_block service_no }
        ensures places { outcome result ≡ mapped (over blank) (new_block service_no) }
    {
        if MOST_NUMBER < service_no {
            return Err(Refusal::BadNumber);
        }
        Ok(Service {
            number: service_no,
            len: 0,
            payload: [0u8; 31],
        })
    }

    /// The number of the block [B1].
    pub fn number(&self) -> Result<u8, Refusal>
        ensures { outcome result ≡ asked self.now (λ b. b.number) }
    {
        self.check()?;
        Ok(self.number)
    }

    /// How many more bytes the payload has room for [B9].
    pub fn free_space(&self) -> Result<usize, Refusal>
        ensures { outcome result ≡ asked self.now block_room }
    {
        self.check()?;
        Ok(MOST_PAYLOAD - self.len)
    }

    /// The length of the block; 0 without payload [B8].
    pub fn len(&self) -> Result<usize, Refusal>
        ensures { outcome result ≡ asked self.now block_length }
    {
        self.check()?;
        Ok(service_headers::block_length(self.number, self.len as u8))
    }

    /// Whether the block has no payload [B1].
    pub fn is_empty(&self) -> Result<bool, Refusal>
        ensures { outcome result ≡ asked self.now (λ b. length b.payload == 0) }
    {
        self.check()?;
        Ok(self.len == 0)
    }

    /// Pushes a code, a run of bytes, to the end of the payload [B10].
    pub fn push_code(&mut self, code: &[u8]) -> Result<(), Refusal>
        ensures answer { says (outcome result) ≡ says (pushed code.now self.old) }
        ensures state { block_of self.new ≡ after (block_of self.old) (pushed code.now self.old) }
        ensures places { self.new ≡ laid self.old (pushed code.now self.old) }
        ensures kept { OnErr result (self.new ≡ self.old) }
    {
        self.check()?;
        let n = code.len();
        if n == 0 {
            return Err(Refusal::BadRun);
        }
        if self.number == 0 {
            return Err(Refusal::ReadOnly);
        }
        let room = MOST_PAYLOAD - self.len;
        if room < n {
            return Err(Refusal::WouldOverflow(n - room));
        }
        let end = self.len + n;
        let all = &mut self.payload[..];
        all[self.len..end].copy_from_slice(code);
        self.len = end;
        Ok(())
    }

    /// Reads the block at the front of `data` [B2] to [B5].
    pub fn parse(data: &[u8]) -> Result<Service, Refusal>
        ensures answer { mapped block_of (outcome result) ≡ read_block «data».now }
        ensures places { outcome result ≡ mapped (over blank) (read_block «data».now) }
    {
        let Some(header) = service_headers::header_at(data, 0) else {
            return Err(service_headers::short_at(data, 0));
        };
        let mut payload = [0u8; 31];
        if header.number == 0 {
            return Ok(Service {
                number: 0,
                len: 0,
                payload,
            });
        }
        let end = header.start + header.size;
        put_bytes(&mut payload, 0, &data[header.start..end]);
        Ok(Service {
            number: header.number,
            len: header.size,
            payload,
        })
    }

    /// Writes the block to a lent output; answers how many bytes that is [B7] [R9].
    pub fn write(&self, out: &mut [u8]) -> Result<usize, Refusal>
        ensures answer { outcome result ≡ mapped (λ _. length (bytes_of self.now)) (written self.now out.old) }
        ensures output { out.new ≡ after out.old (written self.now out.old) }
        ensures kept { OnErr result (out.new ≡ out.old) }
    {
        self.check()?;
        let start = service_headers::written_header_length(self.number);
        let total = start + self.len;
        if out.len() < total {
            return Err(Refusal::OutShort { needed: total });
        }
        service_headers::put_header(out, 0, self.number, self.len as u8);
        out[start..total].copy_from_slice(&self.payload[0..self.len]);
        Ok(total)
    }

    /// Whether the block breaks no limit [B1].
    #[tactic(auto, using(crate::proofs::Services::over_number, crate::proofs::Services::over_length, crate::proofs::Services::null_valid, crate::proofs::Services::named_valid))]
    pub fn is_valid(&self) -> bool
        ensures { result ≡ valid_service self.now }
    {
        if MOST_NUMBER < self.number {
            return false;
        }
        if MOST_PAYLOAD < self.len {
            return false;
        }
        if self.number == 0 {
            return self.len == 0;
        }
        true
    }

    // The test at the head of each call.
    fn check(&self) -> Result<(), Refusal>
        ensures { outcome result ≡ asked self.now (λ _. tt) }
    {
        if self.is_valid() {
            return Ok(());
        }
        Err(Refusal::BadValue)
    }
}

/// The payload of the block at the front of `data`, as a part of `data`; empty where there is none [B6].
pub fn payload_of(data: &[u8]) -> &[u8]
    ensures { result.now ≡ part_in «data».now }
{
    let Some(header) = service_headers::header_at(data, 0) else {
        return &data[0..0];
    };
    if header.number == 0 {
        return &data[0..0];
    }
    let end = header.start + header.size;
    &data[header.start..end]
}
