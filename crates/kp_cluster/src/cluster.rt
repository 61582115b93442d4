//! A worker for each node, and one for the controller.
ghost use Rattle.std.specs.Prelude.{◌≡◌, ◌+◌, ◌<◌, ◌≤◌, IfOk, IfErr, OnOk, OnErr, vec_len};
ghost use Rattle.kp_types.specs.declared.refusal.Refusal.TheVariants.{Memory};
ghost use Rattle.kp_model.specs.World.{most_nodes};
ghost use Rattle.kp_cluster.specs.Places.{places};

use crate::gate::Gate;
use crate::job::{Job, work};
use kp_board::{BoardName, Pass};
use kp_node::Node;
use kp_transport::{Carry, Parcel};
use kp_types::{NodeId, Refusal};
use std::alloc::Global;
use std::marker::{Model, PhantomData};
use std::sync::{Arc, Mutex, Wait};
use std::thread::{Builder, JoinHandle, Promise, Threads};

/// The bytes of a worker's stack.
const STACK: usize = 1 << 20;

/// A worker promises nothing of its answer, which is empty.
#[derive(Clone, Copy)]
struct Nothing;

impl Promise<()> for Nothing {
    ghost use Rattle.std.specs.Prelude.{⊤};

    ghost kept_by = { λ _ _. ⊤ };
}

#[derive(Drop)]
struct Worker {
    place: NodeId,
    told: bool,
    thread: JoinHandle<()>,
}

/// The workers that run. It can't be let go: `stop` ends them and waits for their end.
pub struct Cluster<B: BoardName, C> {
    carrier: Arc<C, Global>,
    workers: Vec<Worker>,
    of: PhantomData<B>,
}

impl<B: BoardName, C> Model for Cluster<B, C> {
    ghost use Rattle.std.specs.Prelude.{ℕ, vec_len};

    ghost Value = { ℕ };

    ghost view = { λ c. vec_len c.workers };
}

// Starts the worker of a place.
fn start_one<
    B: BoardName + Send + Sync + 'static,
    R: Threads + Wait + Copy + Send + 'static,
    C: Carry<Parcel<B>> + Send + Sync + Drop + 'static,
    G: Gate + Send + Sync + Drop + 'static,
>(
    rt: &R,
    place: NodeId,
    job: Job<B>,
    carrier: &Arc<C, Global>,
    gate: &Arc<G, Global>,
    stack: usize,
) -> Result<Worker, Refusal>
    ensures { IfErr result (λ r. r ≡ Memory) }
{
    let carrier = Arc::try_clone(carrier)?;
    let gate = Arc::try_clone(gate)?;
    let own = *rt;
    let started = Builder::new()
        .stack_size(stack)
        .spawn_with(rt, Nothing, move || {
            work(&own, place, job, &*carrier, &*gate)
        });
    match started {
        Ok(thread) => Ok(Worker {
            place,
            told: false,
            thread: thread.forget_promise(),
        }),
        Err(_) => Err(Refusal::Memory),
    }
}

/// Starts a worker for each node, node i at place i, and one for the controller at the place behind them, which decides with this
/// pass. For it the first node lends its board, so that its lock is waited for once. Where there is no node there is none at all.
/// The carrier is to have all of these places: what goes to one that it lacks is lost, also that its worker is to end. Where a
/// growth or a thread is refused, the cluster of the workers that were started comes back, to be stopped. (Own rule.)
pub fn start<
    B: BoardName + Send + Sync + 'static,
    R: Threads + Wait + Copy + Send + 'static,
    C: Carry<Parcel<B>> + Send + Sync + Drop + 'static,
    G: Gate + Send + Sync + Drop + 'static,
>(
    rt: &R,
    alloc: Global,
    nodes: Vec<Arc<Mutex<Node<B>>, Global>>,
    controller: Pass<B>,
    carrier: Arc<C, Global>,
    gate: Arc<G, Global>,
) -> Result<Cluster<B, C>, (Cluster<B, C>, Refusal)>
    requires { vec_len nodes ≤ most_nodes }
    ensures ok { IfOk result (λ cluster. cluster ≡ places (vec_len nodes)) }
    ensures err { IfErr result (λ e. (e.0 < places (vec_len nodes)) × (e.1 ≡ Memory)) }
{
    start_on(
        rt,
        alloc,
        nodes,
        controller,
        carrier,
        gate,
        &|_place: NodeId| { STACK },
    )
}

/// As `start`, with the size of each worker's stack, by its place. The system refuses a thread whose stack is too large.
pub fn start_on<
    B: BoardName + Send + Sync + 'static,
    R: Threads + Wait + Copy + Send + 'static,
    C: Carry<Parcel<B>> + Send + Sync + Drop + 'static,
    G: Gate + Send + Sync + Drop + 'static,
    S: Fn(NodeId) -> usize,
>(
    rt: &R,
    alloc: Global,
    nodes: Vec<Arc<Mutex<Node<B>>, Global>>,
    controller: Pass<B>,
    carrier: Arc<C, Global>,
    gate: Arc<G, Global>,
    stack_of: &S,
) -> Result<Cluster<B, C>, (Cluster<B, C>, Refusal)>
    requires nodes { vec_len nodes ≤ most_nodes }
    requires stacks { S.IsAlwaysCallable stack_of.now }
    ensures ok { IfOk result (λ cluster. cluster ≡ places (vec_len nodes)) }
    ensures err { IfErr result (λ e. (e.0 < places (vec_len nodes)) × (e.1 ≡ Memory)) }
{
    let mut cluster = Cluster {
        carrier,
        workers: Vec::new(alloc),
        of: PhantomData,
    };
    match cluster.add_all(rt, &nodes, controller, &gate, stack_of) {
        Ok(()) => Ok(cluster),
        Err(refusal) => Err((cluster, refusal)),
    }
}

impl<B: BoardName, C: Carry<Parcel<B>>> Cluster<B, C> {
    fn add<R: Threads + Wait + Copy + Send + 'static, G: Gate + Send + Sync + Drop + 'static>(
        &mut self,
        rt: &R,
        job: Job<B>,
        gate: &Arc<G, Global>,
        stack: usize,
    ) -> Result<(), Refusal>
    where
        B: Send + Sync + 'static,
        C: Send + Sync + Drop + 'static,
        requires { self.old ≤ most_nodes }
        ensures ok { OnOk result (self.new ≡ self.old + 1) }
        ensures err { OnErr result (self.new ≡ self.old) }
        ensures refusal { IfErr result (λ r. r ≡ Memory) }
    {
        let place = self.workers.len() as u8;
        self.workers.reserve(1)?;
        let worker = start_one(rt, place, job, &self.carrier, gate, stack)?;
        self.workers.push_reserved(worker);
        Ok(())
    }

    // A worker for each node, and the controller's.
    fn add_all<
        R: Threads + Wait + Copy + Send + 'static,
        G: Gate + Send + Sync + Drop + 'static,
        S: Fn(NodeId) -> usize,
    >(
        &mut self,
        rt: &R,
        nodes: &Vec<Arc<Mutex<Node<B>>, Global>>,
        controller: Pass<B>,
        gate: &Arc<G, Global>,
        stack_of: &S,
    ) -> Result<(), Refusal>
    where
        B: Send + Sync + 'static,
        C: Send + Sync + Drop + 'static,
        requires none { self.old ≡ 0 }
        requires nodes { vec_len nodes.now ≤ most_nodes }
        requires stacks { S.IsAlwaysCallable stack_of.now }
        ensures ok { OnOk result (self.new ≡ places (vec_len nodes.now)) }
        ensures err { OnErr result (self.new < places (vec_len nodes.now)) }
        ensures refusal { IfErr result (λ r. r ≡ Memory) }
    {
        let behind = nodes.len() as u8;
        for node in nodes {
            let node = Arc::try_clone(node)?;
            let place = self.workers.len() as u8;
            let job = Job::Node {
                node,
                controller: behind,
            };
            self.add(rt, job, gate, stack_of(place))?;
        }
        self.add_controller(rt, nodes, controller, gate, stack_of)
    }

    // The controller's worker, behind those of the nodes; none where there are none.
    fn add_controller<
        R: Threads + Wait + Copy + Send + 'static,
        G: Gate + Send + Sync + Drop + 'static,
        S: Fn(NodeId) -> usize,
    >(
        &mut self,
        rt: &R,
        nodes: &Vec<Arc<Mutex<Node<B>>, Global>>,
        controller: Pass<B>,
        gate: &Arc<G, Global>,
        stack_of: &S,
    ) -> Result<(), Refusal>
    where
        B: Send + Sync + 'static,
        C: Send + Sync + Drop + 'static,
        requires nodes { self.old ≡ vec_len nodes.now }
        requires few { vec_len nodes.now ≤ most_nodes }
        requires stacks { S.IsAlwaysCallable stack_of.now }
        ensures ok { OnOk result (self.new ≡ places (vec_len nodes.now)) }
        ensures err { OnErr result (self.new < places (vec_len nodes.now)) }
        ensures refusal { IfErr result (λ r. r ≡ Memory) }
    {
        let Some(first) = nodes.first() else {
            return Ok(());
        };
        let board = Arc::try_clone(first.lock(rt).board())?;
        let stack = stack_of(nodes.len() as u8);
        let job = Job::Controller {
            board,
            pass: controller,
        };
        self.add(rt, job, gate, stack)
    }

    /// It is this place's turn. At the controller's it does nothing.
    pub fn turn(&self, place: NodeId) -> Result<(), Refusal>
        ensures { IfErr result (λ r. r ≡ Memory) }
    {
        self.carrier.send(place, Parcel::Turn)
    }

    fn tell_all(&mut self) -> Result<(), Refusal>
        ensures same { self.new ≡ self.old }
        ensures refusal { IfErr result (λ r. r ≡ Memory) }
    {
        for worker in self.workers.iter_mut() {
            if !worker.told {
                self.carrier.send(worker.place, Parcel::Stop)?;
                worker.told = true;
            }
        }
        Ok(())
    }

    /// Tells each worker to stop, and waits for its end. Where a growth is refused the cluster comes back: call it again.
    pub fn stop<R: Threads>(mut self, rt: &R) -> Result<(), (Cluster<B, C>, Refusal)>
    where
        C: Drop,
        ensures { IfErr result (λ e. (e.0 ≡ self) × (e.1 ≡ Memory)) }
    {
        match self.tell_all() {
            Ok(()) => {}
            Err(refusal) => return Err((self, refusal)),
        }
        let Cluster {
            carrier,
            workers,
            of: _,
        } = self;
        drop(carrier);
        for worker in workers {
            let Worker {
                place: _,
                told: _,
                thread,
            } = worker;
            thread.join(rt);
        }
        Ok(())
    }
}
