//! One worker with its share and its endpoint.

ghost use Rattle.std.specs.Prelude.{◌≡◌, map, IfErr, IfOk};
ghost use Rattle.std.specs.List.{zip};
ghost use Rattle.fork_join.specs.declared.work.WorkerError.TheVariants.{Memory};
ghost use Rattle.window_workers.specs.Worker.{make_worker};

use copy_exchange::Endpoint;
use fork_join::WorkerError;
use std::alloc::Global;
use worker_window::Share;

/// A worker: its share of the net, and its endpoint.
#[derive(Drop)]
pub struct Worker {
    pub share: Share,
    pub endpoint: Endpoint,
    /// A moment at or before the arrivals of the copies that the worker delivered and that are still in an inbox.
    pub first_out: Option<u64>,
}

/// Makes each worker from its share and its endpoint.
///
/// # Errors
/// `Memory` if an allocation fails. There is no other error.
pub fn workers_of(
    alloc: Global,
    shares: Vec<Share>,
    endpoints: Vec<Endpoint>,
) -> Result<Vec<Worker>, WorkerError>
    ensures workers { IfOk result (λ workers. workers.items ≡ map make_worker (zip shares.items endpoints.items)) }
    ensures refused { IfErr result (λ reason. reason ≡ Memory) }
{
    let mut workers = Vec::new(alloc);
    for (share, endpoint) in shares.into_iter().zip(endpoints) {
        workers.push(Worker {
            share,
            endpoint,
            first_out: None,
        })?;
    }
    Ok(workers)
}

/// Separates the workers' shares from their endpoints.
///
/// # Errors
/// `Memory` if an allocation fails. There is no other error.
pub fn split_workers(
    alloc: Global,
    workers: Vec<Worker>,
) -> Result<(Vec<Share>, Vec<Endpoint>), WorkerError>
    ensures shares { IfOk result (λ r. r.0.items ≡ map (λ worker. worker.share) workers.items) }
    ensures endpoints { IfOk result (λ r. r.1.items ≡ map (λ worker. worker.endpoint) workers.items) }
    ensures refused { IfErr result (λ reason. reason ≡ Memory) }
{
    let mut shares = Vec::new(alloc);
    let mut endpoints = Vec::new(alloc);
    for worker in workers {
        let Worker {
            share,
            endpoint,
            first_out: _,
        } = worker;
        shares.push(share)?;
        endpoints.push(endpoint)?;
    }
    Ok((shares, endpoints))
}
