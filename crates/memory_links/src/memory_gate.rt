ghost use Rattle.std.specs.VecDeque.{deque_len};
ghost use Rattle.std.specs.Prelude.{◌≡◌, ◌-◌, ◌+◌, ◌≤◌, ◌<◌, ◌↔◌, false, [], ◌∷◌, ◌++◌, Some, None};
ghost use Rattle.std.specs.Prelude.{length, slice_get, is_some, vec_len, vec_capacity, IfOk};
ghost use Rattle.std.specs.Prelude.{IfSome};
ghost use Rattle.std.specs.Prelude.{if◌then◌else◌};
ghost use Rattle.kom_links.specs.Outside.{IsFresh};
ghost use Rattle.kom_links.specs.Doors.{IfLink, Admits, TakesBack, IsLeft};
ghost use Rattle.kom_links.specs.WorldCounts.{next_call};
ghost use Rattle.memory_links.specs.Script.{faults_after, Fails, Waits};

use crate::memory_link::{LinkPlan, MemoryLink, Script};
use crate::open_keys::{add_key, remove_key};
use kom_links::{Gate, Link, Next, PolledGate, Served};
use kom_types::Memory;
use std::alloc::Global;
use std::collections::VecDeque;

/// A client that is known beforehand: the bytes that it sends, and how its link gives and takes
/// bytes.
#[derive(Debug, Drop)]
pub struct Client {
    pub input: Vec<u8>,
    pub plan: LinkPlan,
}

/// A gate whose clients are known beforehand, and which keeps the links that are given back.
#[derive(Debug, Drop)]
pub struct MemoryGate {
    alloc: Global,
    clients: VecDeque<Client>,
    total: usize,
    returned: Vec<(MemoryLink, Served)>,
    // The keys of the links that are open, and how many of them were told since the last wait.
    keys: Vec<usize>,
    told: usize,
    // Whether more links were given back than the gate had, for which there is no room.
    lost: bool,
    plan: Script,
    calls: u64,
    has_ended: bool,
    faults: u64,
    ghost counted: { deque_len clients ≤ total },
    ghost room: { total ≤ vec_capacity returned },
    ghost fewer: { vec_len keys + deque_len clients ≤ total },
    ghost key_room: { total ≤ vec_capacity keys },
}

impl MemoryGate {
    ghost use Rattle.memory_links.specs.Memories.{clients_of, script_of, calls_of, open_keys};
    ghost use Rattle.memory_links.specs.Memories.{next_failed, keys_after, key_of};
    ghost use Rattle.memory_links.specs.Memories.{IsLinkOfFirst, StaysWithNoLink};

    /// A gate that gives the links of these clients, in order, and then ends. The room for all that
    /// will be given back is taken now.
    pub fn make(
        alloc: Global,
        clients: VecDeque<Client>,
        plan: Script,
    ) -> Result<MemoryGate, Memory>
        ensures empty { IfOk result (λ gate. ⟦<MemoryGate as Gate>⟧.view gate
            ≡ record { given = Some 0; returned = Some []; ended = false; faults = 0 }) }
        ensures clients { IfOk result (λ gate. clients_of gate ≡ clients.items) }
        ensures script { IfOk result (λ gate. script_of gate ≡ plan) }
        ensures no_call { IfOk result (λ gate. calls_of gate ≡ 0) }
    {
        let total = clients.len();
        Ok(MemoryGate {
            alloc,
            clients,
            total,
            returned: Vec::with_capacity(alloc, total)?,
            keys: Vec::with_capacity(alloc, total)?,
            told: 0,
            lost: false,
            plan,
            calls: 0,
            has_ended: false,
            faults: 0,
        })
    }

    /// The links that were given back, in order, each with how it was served.
    pub fn returned(&self) -> &[(MemoryLink, Served)]
        ensures { IfSome (⟦<MemoryGate as Gate>⟧.view self.now).returned (λ links.
            result.now ≡ links) }
    {
        self.returned.as_slice()
    }

    /// The next link, told of by this key, if it has one.
    fn give(&mut self, key: Option<usize>) -> Next<MemoryLink>
        ensures admits { Admits (⟦<MemoryGate as Gate>⟧.view self.old) result
            (⟦<MemoryGate as Gate>⟧.view self.new) }
        ensures fresh { IfLink result (λ link. IsFresh (⟦<MemoryLink as Link>⟧.view link)) }

        // what the script says of this call
        ensures failed { (result ≡ Next.Failed)
            ↔ Fails (script_of self.old).fails.items (calls_of self.old) }
        ensures not_yet { (result ≡ Next.NotYet) ↔ Waits (script_of self.old) (calls_of self.old) }
        ensures counted { calls_of self.new ≡ next_call (calls_of self.old) }
        ensures script { script_of self.new ≡ script_of self.old }
        ensures fault { (⟦<MemoryGate as Gate>⟧.view self.new).faults
            ≡ faults_after (next_failed result) (⟦<MemoryGate as Gate>⟧.view self.old).faults }

        // whose link is given
        ensures first { IfLink result (λ link.
            IsLinkOfFirst (⟦<MemoryLink as Link>⟧.view link) link (clients_of self.old)
            (clients_of self.new)) }
        ensures clients { StaysWithNoLink result (clients_of self.old) (clients_of self.new) }
        ensures none_left { (result ≡ Next.Ended) → clients_of self.old ≡ [] }

        // of which links it tells from now on
        ensures keys { open_keys self.new ≡ keys_after result key (open_keys self.old) }
        ensures key { IfLink result (λ link. key_of link ≡ key) }
    {
        self.calls = self.calls.saturating_add(1);
        if self.plan.fails.contains(&self.calls) {
            self.faults = self.faults.saturating_add(1);
            return Next::Failed;
        }
        if self.plan.waits.contains(&self.calls) {
            return Next::NotYet;
        }
        match self.clients.pop_front() {
            Some(client) => {
                add_key(&mut self.keys, key);
                Next::Link(MemoryLink::under(self.alloc, client.input, client.plan, key))
            }
            None => {
                self.has_ended = true;
                Next::Ended
            }
        }
    }
}

impl Gate for MemoryGate {
    ghost use Rattle.memory_links.specs.Memories.{gate_view, clients_of, script_of, calls_of};
    ghost use Rattle.memory_links.specs.Memories.{next_failed, open_keys, keys_after, key_of};
    ghost use Rattle.memory_links.specs.Memories.{without_key};
    ghost use Rattle.memory_links.specs.Memories.{IsLinkOfFirst, StaysWithNoLink};

    type Link = MemoryLink;

    ghost view = { λ gate. gate_view gate };

    fn faults(&self) -> u64 {
        self.faults
    }

    fn next(&mut self) -> Next<MemoryLink>
        ensures admits { Admits (⟦<MemoryGate as Gate>⟧.view self.old) result
            (⟦<MemoryGate as Gate>⟧.view self.new) }
        ensures fresh { IfLink result (λ link. IsFresh (⟦<MemoryLink as Link>⟧.view link)) }

        // what the script says of this call
        ensures failed { (result ≡ Next.Failed)
            ↔ Fails (script_of self.old).fails.items (calls_of self.old) }
        ensures not_yet { (result ≡ Next.NotYet) ↔ Waits (script_of self.old) (calls_of self.old) }
        ensures counted { calls_of self.new ≡ next_call (calls_of self.old) }
        ensures script { script_of self.new ≡ script_of self.old }
        ensures fault { (⟦<MemoryGate as Gate>⟧.view self.new).faults
            ≡ faults_after (next_failed result) (⟦<MemoryGate as Gate>⟧.view self.old).faults }

        // whose link is given
        ensures first { IfLink result (λ link.
            IsLinkOfFirst (⟦<MemoryLink as Link>⟧.view link) link (clients_of self.old)
            (clients_of self.new)) }
        ensures clients { StaysWithNoLink result (clients_of self.old) (clients_of self.new) }
        ensures none_left { (result ≡ Next.Ended) → clients_of self.old ≡ [] }
        ensures keys { open_keys self.new ≡ keys_after result None (open_keys self.old) }
    {
        self.give(None)
    }

    fn give_back(&mut self, link: MemoryLink, served: Served)
        ensures takes_back { TakesBack (⟦<MemoryGate as Gate>⟧.view self.old) link served
            (⟦<MemoryGate as Gate>⟧.view self.new) }

        // It is kept while fewer were given back than were given.
        ensures kept { IfSome (⟦<MemoryGate as Gate>⟧.view self.old).given (λ n.
            IfSome (⟦<MemoryGate as Gate>⟧.view self.old).returned (λ links.
            length links < n →
            (⟦<MemoryGate as Gate>⟧.view self.new).returned
            ≡ Some (links ++ (link, served) ∷ []))) }

        // the calls for a link go on as before
        ensures no_fault { (⟦<MemoryGate as Gate>⟧.view self.new).faults
            ≡ (⟦<MemoryGate as Gate>⟧.view self.old).faults }
        ensures clients { clients_of self.new ≡ clients_of self.old }
        ensures script { script_of self.new ≡ script_of self.old }
        ensures calls { calls_of self.new ≡ calls_of self.old }

        // it is not told of any more
        ensures keys { open_keys self.new ≡ without_key (key_of link) (open_keys self.old) }
    {
        remove_key(&mut self.keys, link.key());
        // Another may be told twice, and none is left out.
        self.told = self.told.saturating_sub(1);
        if self.returned.len() < self.returned.capacity() {
            self.returned.push_reserved((link, served));
        } else {
            self.lost = true;
        }
    }
}

impl PolledGate for MemoryGate {
    ghost use Rattle.memory_links.specs.Memories.{clients_of, script_of, calls_of, open_keys};
    ghost use Rattle.memory_links.specs.Memories.{next_failed, keys_after, key_of, told_of};
    ghost use Rattle.memory_links.specs.Memories.{IsLinkOfFirst, StaysWithNoLink};

    fn wait(&mut self, _is_busy: bool)
        ensures left { IsLeft (⟦<MemoryGate as Gate>⟧.view self.old)
            (⟦<MemoryGate as Gate>⟧.view self.new) }
        ensures no_fault { (⟦<MemoryGate as Gate>⟧.view self.new).faults
            ≡ (⟦<MemoryGate as Gate>⟧.view self.old).faults }
        ensures clients { clients_of self.new ≡ clients_of self.old }
        ensures script { script_of self.new ≡ script_of self.old }
        ensures calls { calls_of self.new ≡ calls_of self.old }
        ensures keys { open_keys self.new ≡ open_keys self.old }
        ensures none_told { told_of self.new ≡ 0 }
    {
        self.told = 0;
    }

    fn next_ready(&mut self) -> Option<usize>
        ensures left { IsLeft (⟦<MemoryGate as Gate>⟧.view self.old)
            (⟦<MemoryGate as Gate>⟧.view self.new) }
        ensures no_fault { (⟦<MemoryGate as Gate>⟧.view self.new).faults
            ≡ (⟦<MemoryGate as Gate>⟧.view self.old).faults }
        ensures clients { clients_of self.new ≡ clients_of self.old }
        ensures script { script_of self.new ≡ script_of self.old }
        ensures calls { calls_of self.new ≡ calls_of self.old }
        ensures keys { open_keys self.new ≡ open_keys self.old }
        ensures next { result ≡ slice_get (open_keys self.old) (told_of self.old) }
        ensures told { told_of self.new ≡ (if is_some result then told_of self.old + 1
            else told_of self.old) }
    {
        let key = self.keys.get(self.told).copied()?;
        self.told += 1;
        Some(key)
    }

    fn was_rung(&mut self) -> bool
        ensures left { IsLeft (⟦<MemoryGate as Gate>⟧.view self.old)
            (⟦<MemoryGate as Gate>⟧.view self.new) }
        ensures same { self.new ≡ self.old }
    {
        false
    }

    fn ring(&mut self)
        ensures left { IsLeft (⟦<MemoryGate as Gate>⟧.view self.old)
            (⟦<MemoryGate as Gate>⟧.view self.new) }
        ensures same { self.new ≡ self.old }
    {}

    fn let_in(&mut self, key: usize) -> Next<MemoryLink>
        ensures admits { Admits (⟦<MemoryGate as Gate>⟧.view self.old) result
            (⟦<MemoryGate as Gate>⟧.view self.new) }
        ensures fresh { IfLink result (λ link. IsFresh (⟦<MemoryLink as Link>⟧.view link)) }

        // what the script says of this call
        ensures failed { (result ≡ Next.Failed)
            ↔ Fails (script_of self.old).fails.items (calls_of self.old) }
        ensures not_yet { (result ≡ Next.NotYet) ↔ Waits (script_of self.old) (calls_of self.old) }
        ensures counted { calls_of self.new ≡ next_call (calls_of self.old) }
        ensures script { script_of self.new ≡ script_of self.old }
        ensures fault { (⟦<MemoryGate as Gate>⟧.view self.new).faults
            ≡ faults_after (next_failed result) (⟦<MemoryGate as Gate>⟧.view self.old).faults }

        // whose link is given
        ensures first { IfLink result (λ link.
            IsLinkOfFirst (⟦<MemoryLink as Link>⟧.view link) link (clients_of self.old)
            (clients_of self.new)) }
        ensures clients { StaysWithNoLink result (clients_of self.old) (clients_of self.new) }
        ensures none_left { (result ≡ Next.Ended) → clients_of self.old ≡ [] }

        // of which links it tells from now on
        ensures keys { open_keys self.new ≡ keys_after result (Some key) (open_keys self.old) }
        ensures key { IfLink result (λ link. key_of link ≡ Some key) }
    {
        self.give(Some(key))
    }
}
