//! One thread for each worker.
ghost use Rattle.std.specs.Prelude.{◌≡◌, vec_capacity, vec_len, IfErr, IfOk, IsFalse, IsTrue};
ghost use Rattle.cm_run.specs.Jobs.{AllDone, AllDoneOrStopped, FirstBack, IsDone, IsDoneIfRun};

use crate::jobs::{Job, Plan};
use crate::working::work;
use cm_boot::Bus;
use cm_register::{RunName, SharedManager};
use std::snapshot::Snapshot;
use std::sync::Wait;
use std::sync::atomic::{AtomicUsize, Ordering};
use std::thread;
use std::thread::{Promise, PromisedHandle, Scope, Threads};

/// A job that comes back, and whether it was run.
#[derive(Drop)]
struct Back<B: Bus, K: RunName> {
    job: Job<B, K>,
    was_run: bool,
}

/// What a worker's thread is given, by which is known what it hands back.
#[derive(Drop)]
struct Given<B: Bus, K: RunName> {
    plan: Plan,
    worker: usize,
    job: Snapshot<Job<B, K>>,
}

impl<B: Bus, K: RunName> Promise<Back<B, K>> for Given<B, K> {
    ghost use Rattle.cm_run.specs.Jobs.{IsDoneIfRun};

    ghost kept_by = { λ g r. IsDoneIfRun g.plan g.worker g.job.value r.was_run r.job };
}

/// Runs the job, unless it was this worker's thread that was refused.
fn run_unless_refused<K: RunName, R: Wait, M: SharedManager<K, R>, B: Bus>(
    rt: &R,
    register: &M,
    plan: Plan,
    refused: &AtomicUsize,
    worker: usize,
    job: Job<B, K>,
) -> Back<B, K>
    ensures { IsDoneIfRun plan worker job result.was_run result.job }
{
    if refused.load(Ordering::SeqCst) == worker {
        return Back {
            job,
            was_run: false,
        };
    }
    Back {
        job: work(rt, register, plan, worker, job),
        was_run: true,
    }
}

/// The job that a worker's thread hands back, which was run. That it wasn't never comes, though no clause
/// says so: it is run here then.
fn finish<K: RunName, R: Wait, M: SharedManager<K, R>, B: Bus>(
    rt: &R,
    register: &M,
    plan: Plan,
    worker: usize,
    back: Back<B, K>,
) -> Job<B, K>
    ensures { (job : _) → IsDoneIfRun plan worker job back.was_run back.job
        → IsDone plan worker job result }
{
    let Back { job, was_run } = back;
    if was_run {
        return job;
    }
    work(rt, register, plan, worker, job)
}

/// Starts a worker's thread. Where it is refused, the job comes back at once.
fn start<
    's,
    V,
    K: RunName + Send + Sync + 's,
    R: Wait + Threads + Send + Sync,
    M: SharedManager<K, R> + Sync,
    B: Bus + Send + 's,
>(
    scope: &Scope<'s, V>,
    rt: &'s R,
    register: &'s M,
    plan: Plan,
    refused: &'s AtomicUsize,
    worker: usize,
    job: Job<B, K>,
) -> Result<PromisedHandle<Back<B, K>, Given<B, K>>, Back<B, K>>
    ensures plan { IfOk result (λ h. (h.promise.plan ≡ plan) × (h.promise.worker ≡ worker)) }
    ensures job { IfOk result (λ h. h.promise.job.value ≡ job) }
    ensures back { IfErr result (λ r. IsDoneIfRun plan worker job r.was_run r.job) }
{
    let given = Given {
        plan,
        worker,
        job: Snapshot::of(&job),
    };
    match scope.spawn_with(
        given,
        move || run_unless_refused(rt, register, plan, refused, worker, job),
    ) {
        Ok(handle) => Ok(handle),
        Err(error) => {
            refused.store(worker, Ordering::SeqCst);
            Err((error.value)())
        }
    }
}

/// Runs these jobs, those of the first workers, each in a thread of its own, and says whether all
/// were run. The threads are started from the last one to the first; where one is refused, those
/// that would follow aren't started, and the others finish.
fn run_first<
    's,
    V,
    K: RunName + Send + Sync + 's,
    R: Wait + Threads + Send + Sync,
    M: SharedManager<K, R> + Sync,
    B: Bus + Send + 's,
>(
    scope: &Scope<'s, V>,
    rt: &'s R,
    register: &'s M,
    plan: Plan,
    refused: &'s AtomicUsize,
    jobs: &mut Vec<Job<B, K>>,
) -> bool
    ensures len { vec_len jobs.new ≡ vec_len jobs.old }
    ensures capacity { vec_capacity jobs.new ≡ vec_capacity jobs.old }
    ensures each { AllDoneOrStopped plan jobs.old.items jobs.new.items }
    ensures all { IsTrue result → AllDone plan jobs.old.items jobs.new.items }
    ensures first { IsFalse result → FirstBack jobs.old.items jobs.new.items }
{
    let Some(job) = jobs.pop() else {
        return true;
    };
    let worker = jobs.len();
    match start(scope, rt, register, plan, refused, worker, job) {
        Ok(handle) => {
            let others = run_first(scope, rt, register, plan, refused, jobs);
            let job = finish(rt, register, plan, worker, handle.join(rt));
            jobs.push_reserved(job);
            others
        }
        Err(back) => {
            let Back { job, was_run } = back;
            if !was_run {
                jobs.push_reserved(job);
                return false;
            }
            // This never comes, though no clause says so: a job whose thread is refused isn't run.
            let others = run_first(scope, rt, register, plan, refused, jobs);
            jobs.push_reserved(job);
            others
        }
    }
}

/// Runs all jobs, each in a thread of its own. `Err` where a thread was refused.
pub(crate) fn run_jobs<
    K: RunName + Send + Sync,
    R: Wait + Threads + Send + Sync,
    M: SharedManager<K, R> + Sync,
    B: Bus + Send,
>(rt: &R, register: &M, plan: Plan, jobs: Vec<Job<B, K>>) -> Result<Vec<Job<B, K>>, Vec<Job<B, K>>>
    ensures done_len { IfOk result (λ v. vec_len v ≡ vec_len jobs) }
    ensures done { IfOk result (λ v. AllDone plan jobs.items v.items) }
    ensures stopped_len { IfErr result (λ v. vec_len v ≡ vec_len jobs) }
    ensures stopped { IfErr result (λ v. AllDoneOrStopped plan jobs.items v.items) }
    ensures first { IfErr result (λ v. FirstBack jobs.items v.items) }
{
    let refused = AtomicUsize::new(plan.workers);
    let refused = &refused;
    thread::scope(
        thread::scope_env(),
        rt,
        |scope| -> Result<Vec<Job<B, K>>, Vec<Job<B, K>>>
            ensures done_len { IfOk result (λ v. vec_len v ≡ vec_len jobs) }
            ensures done { IfOk result (λ v. AllDone plan jobs.items v.items) }
            ensures stopped_len { IfErr result (λ v. vec_len v ≡ vec_len jobs) }
            ensures stopped { IfErr result (λ v. AllDoneOrStopped plan jobs.items v.items) }
            ensures first { IfErr result (λ v. FirstBack jobs.items v.items) }
        {
            let mut jobs = jobs;
            if run_first(scope, rt, register, plan, refused, &mut jobs) {
                Ok(jobs)
            } else {
                Err(jobs)
            }
        },
    )
}
