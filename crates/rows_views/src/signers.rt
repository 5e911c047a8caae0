//! Requests on signers over backends that do one thing each and count their verifications.
ghost use Rattle.std.specs.Prelude.{codes};

use jj_files::file_util::{SourceError, SourceKind};
use jj_ids::object_id::CommitId;
use jj_stores::signing::{SigStatus, SignError, SignResult, Signer, SigningBackend, Verification};
use rows::request::{Fields, Request};
use rows::row_error::{RowError, needs};
use rows::values::Values;
use std::alloc::Global;
use std::cell::Cell;
use std::num::NonZeroUsize;
use std::rc::Rc;

type Counter = Rc<Cell<u32>>;

// The behavior of a backend.
#[derive(Clone, Copy)]
enum Behavior {
    CannotRead,
    Finds(SigStatus),
    RejectsFormat,
    Fails,
}

#[derive(Drop)]
struct CountingBackend {
    reads: bool,
    behavior: Behavior,
    calls: Counter,
}

impl SigningBackend for CountingBackend {
    ghost kind_name = { λ _. codes "counting" };

    ghost reads = { λ backend _. backend.reads };

    ghost may_verify = { λ _ _ _ _. Unit {0} };

    ghost may_sign = { λ _ _ _ _. Unit {0} };

    fn name(&self) -> &str {
        "counting"
    }

    fn can_read(&self, _signature: &[u8]) -> bool {
        self.reads
    }

    fn sign(&self, alloc: Global, data: &[u8], key: Option<&str>) -> SignResult<Vec<u8>> {
        let mut signature = Vec::from_slice(alloc, b"signed ")?;
        signature.extend_from_slice(data)?;
        if let Some(key) = key {
            signature.extend_from_slice(key.as_bytes())?;
        }
        Ok(signature)
    }

    fn verify(&self, alloc: Global, _data: &[u8], _signature: &[u8]) -> SignResult<Verification> {
        self.calls.set(self.calls.get().saturating_add(1));
        match self.behavior {
            Behavior::CannotRead => Ok(Verification::unknown()),
            Behavior::Finds(status) => Ok(Verification::new(status, None, None)),
            Behavior::RejectsFormat => Err(SignError::InvalidSignatureFormat),
            Behavior::Fails => Err(SignError::Backend(SourceError {
                kind: SourceKind::Other,
                message: String::from_str(alloc, "no answer")?,
            })),
        }
    }
}

fn behavior_of(name: &str) -> Result<Behavior, RowError> {
    match name {
        "cannot-read" => Ok(Behavior::CannotRead),
        "unknown" => Ok(Behavior::Finds(SigStatus::Unknown)),
        "good" => Ok(Behavior::Finds(SigStatus::Good)),
        "bad" => Ok(Behavior::Finds(SigStatus::Bad)),
        "rejects" => Ok(Behavior::RejectsFormat),
        "fails" => Ok(Behavior::Fails),
        _ => Err(RowError::Unreadable("behavior")),
    }
}

// Creates a backend of this behavior, and pushes its counter.
fn backend_of(
    alloc: Global,
    name: &str,
    counters: &mut Vec<Counter>,
) -> Result<CountingBackend, RowError> {
    let behavior = behavior_of(name)?;
    let calls = Rc::new(alloc, Cell::new(0))?;
    counters.push(calls.clone()?)?;
    Ok(CountingBackend {
        reads: !matches!(behavior, Behavior::CannotRead),
        behavior,
        calls,
    })
}

fn put_verification(found: SignResult<Verification>, values: &mut Values) -> Result<(), RowError> {
    match found {
        Ok(verification) => values.display(&verification.status()),
        Err(SignError::Memory) => return Err(RowError::Memory),
        Err(error) => values.display(&error),
    }
    Ok(())
}

fn commits_of(alloc: Global, fields: &Fields) -> Result<Vec<CommitId>, RowError> {
    let mut commits = Vec::new(alloc);
    for index in 0..fields.len() {
        commits.push(CommitId::from_bytes(alloc, fields.bytes(index))?)?;
    }
    Ok(commits)
}

// CAPACITY | MAIN OTHER .. | COMMIT ..
fn verify_all(
    alloc: Global,
    request: &Request,
    counters: &mut Vec<Counter>,
    values: &mut Values,
) -> Result<(), RowError> {
    let Some(capacity) = NonZeroUsize::new(request.group(0).index(0)) else {
        return Err(RowError::Precondition("a capacity"));
    };
    let backends = request.group(1);
    let commits = commits_of(alloc, request.group(2))?;
    let main = backend_of(alloc, backends.string(0), counters)?;
    let main: Box<dyn SigningBackend> = Box::new(alloc, main)?;
    let mut others = Vec::new(alloc);
    for index in 1..backends.len() {
        let other = backend_of(alloc, backends.string(index), counters)?;
        let other: Box<dyn SigningBackend> = Box::new(alloc, other)?;
        others.push(other)?;
    }
    let mut signer = Signer::with_capacity(alloc, Some(main), others, capacity)?;
    for commit in &commits {
        put_verification(signer.verify(commit, b"data", b"signature"), values)?;
    }
    Ok(())
}

// `signer CAPACITY | MAIN OTHER .. | COMMIT ..`: the status or the error of each verification, and
// the number of calls of each backend.
fn signer(alloc: Global, request: &Request, values: &mut Values) -> Result<(), RowError> {
    let mut counters = Vec::new(alloc);
    verify_all(alloc, request, &mut counters, values)?;
    for counter in &counters {
        values.number(counter.get() as u64);
    }
    Ok(())
}

fn put_signature(
    signer: &Signer,
    data: &[u8],
    key: Option<&str>,
    values: &mut Values,
) -> Result<(), RowError> {
    needs(signer.can_sign(), "a main backend")?;
    match signer.sign(data, key) {
        Ok(signature) => values.bytes(&signature),
        Err(SignError::Memory) => return Err(RowError::Memory),
        Err(error) => values.display(&error),
    }
    Ok(())
}

// `signer-sign MAIN DATA` or `signer-sign MAIN DATA KEY`: the signature of the main backend, and
// an unmet precondition if MAIN is `none`.
fn sign(alloc: Global, request: &Request, values: &mut Values) -> Result<(), RowError> {
    let fields = request.group(0);
    let data = fields.bytes(1);
    let key = if fields.len() > 2 {
        Some(fields.string(2))
    } else {
        None
    };
    let main: Option<Box<dyn SigningBackend>> = if fields.string(0) == "none" {
        None
    } else {
        let backend = backend_of(alloc, fields.string(0), &mut Vec::new(alloc))?;
        let backend: Box<dyn SigningBackend> = Box::new(alloc, backend)?;
        Some(backend)
    };
    let signer = Signer::new(alloc, main, Vec::new(alloc))?;
    put_signature(&signer, data, key, values)
}

/// Runs the request of this name. Returns `false` if this module has no such request.
pub fn call(alloc: Global, name: &str, request: &Request, values: &mut Values) -> bool {
    let called = match name {
        "signer" => signer(alloc, request, values),
        "signer-sign" => sign(alloc, request, values),
        _ => return false,
    };
    values.record(called);
    true
}
