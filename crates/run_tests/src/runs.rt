//! What the tests share: a run over a source, a sink and a pool.
use std::alloc::{AllocError, Global};
use std::sync::Wait;
use std::thread::Threads;
use trace_run::{Outcome, run};
use vdev_io::{CacheDev, Gate, MemPool, MemSink, MemSource, NoCache, Pool};

/// The SHA-256 of 512 zero bytes, for which the letter Z stands in the texts of these tests.
const ZEROS: &str = "076a27c79e5ace2a3d47f9dd2e83e4ff6ea8872b3c2218f66c92b89b55f36560";

/// A text with the digest in place of its letter.
pub(super) fn spelled(alloc: Global, text: &str) -> Result<String, AllocError> {
    text.replace(alloc, 'Z', ZEROS)
}

/// A source of a text, of which these calls fail.
pub(super) fn source_of(alloc: Global, text: &str, fail: &[u64]) -> Result<MemSource, AllocError> {
    let bytes = spelled(alloc, text)?.into_bytes();
    Ok(MemSource::new(bytes, fail.to_vec(alloc)?))
}

/// A pool of zero bytes, of which these calls fail, and of its forks those of these lists.
pub(super) fn zeros(
    alloc: Global,
    len: usize,
    fail: &[u64],
    forks: &[&[u64]],
) -> Result<MemPool, AllocError> {
    let mut lists = Vec::new(alloc);
    for fork in forks {
        lists.push(fork.to_vec(alloc)?)?;
    }
    let bytes = vec![in alloc; 0; len]?;
    MemPool::new(alloc, bytes, fail.to_vec(alloc)?, lists).or(Err(AllocError))
}

fn words_of(alloc: Global, words: &[&str]) -> Result<Vec<String>, AllocError> {
    let mut all = Vec::new(alloc);
    for word in words {
        all.push(String::from_str(alloc, word)?)?;
    }
    Ok(all)
}

/// Does what the words ask, and gives what came of it and what was written.
pub(super) fn ran<R: AllocGlobal + Threads + Wait + Sync, P: Pool, G: Gate>(
    rt: &R,
    words: &[&str],
    source: &mut MemSource,
    pool: &mut P,
    sink_fails: &[u64],
    gate: &G,
) -> Result<(Outcome, Vec<u8>), AllocError> {
    let mut cache = None::<NoCache>;
    ran_with(rt, words, source, pool, &mut cache, sink_fails, gate)
}

/// The same with a cache device, where there is one.
pub(super) fn ran_with<R: AllocGlobal + Threads + Wait + Sync, P: Pool, D: CacheDev, G: Gate>(
    rt: &R,
    words: &[&str],
    source: &mut MemSource,
    pool: &mut P,
    cache: &mut Option<D>,
    sink_fails: &[u64],
    gate: &G,
) -> Result<(Outcome, Vec<u8>), AllocError> {
    let alloc = rt.alloc();
    let words = words_of(alloc, words)?;
    let fail = sink_fails.to_vec(alloc)?;
    let mut sink = MemSink::new(alloc, 12, 4096, fail).or(Err(AllocError))?;
    let outcome = run(alloc, rt, &words, source, &mut sink, pool, cache, gate);
    let text = sink.bytes().to_vec(alloc)?;
    Ok((outcome, text))
}
