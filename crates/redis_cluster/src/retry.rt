ghost use Rattle.std.specs.Prelude.{◌≡◌, ◌⊎◌, ◌<◌, [], Some, None, true, false, Option, IsNone, IfOk, OnOk, IfErr, MatchOption, IfSome, option_map, reverse};
ghost use Rattle.cluster_slots.specs.Address.{Address};
ghost use Rattle.cluster_map.specs.RangeMap.{IsUncovered};
ghost use Rattle.cluster_map.specs.Fallback.{IsFallback};
ghost use Rattle.cluster_map.specs.RouteNode.{IsRouteNode};
ghost use Rattle.redis_cluster.specs.Retry.{IsRetryOf, FollowsRedirect, FallsBack, AsksAgain, HasEnded};

use cluster_map::{ReadRoutingStrategy, SlotMap};
use cluster_slots::{NodeAddress, Route};
use redis_routing::Redirect;
use std::alloc::{AllocError, Global};
use std::marker::Model;

/// Where a command of one route goes, and where it goes next if a node redirects or refuses it. It
/// sends nothing: a client with connections of its own sends to `target`, and reports the outcome.
///
/// Each call that names a new target counts as one retry. After an answer or a lost reply report
/// nothing, and send nothing again: the command may have taken effect.
///
/// ```
/// Retry::new(alloc, map, route, None, 0, 3)
/// ```
#[derive(Drop)]
pub struct Retry {
    target: Option<NodeAddress>,
    /// The addresses to fall back on, the next one last.
    fallback: Vec<NodeAddress>,
    left: usize,
}

impl Model for Retry {
    ghost use Rattle.std.specs.Prelude.{◌≡◌, None, reverse};
    ghost use Rattle.redis_cluster.specs.Retry.{RetryState};

    ghost Value = { RetryState };

    ghost view = { λ r. record {
      target = r.target;
      fallback = reverse r.fallback.items;
      left = r.left;
    } };

    ghost invariant = { λ r. r.target ≡ None → r.left ≡ 0 };
}

impl Retry {
    /// Begins at the node of the route. `None` if no range of the map has its slot. The strategy is
    /// asked once. If nodes refuse, the retries go through `SlotMap::shard_fallback_addrs`.
    ///
    /// # Errors
    ///
    /// If memory runs out. No other call of this type takes memory.
    pub fn new(
        alloc: Global,
        map: &SlotMap,
        route: Route,
        strategy: Option<&dyn ReadRoutingStrategy>,
        pick: usize,
        retries: usize,
    ) -> Result<Option<Self>, AllocError>
        ensures target { IfOk result (λ made. MatchOption made (IsUncovered map.now route.slot)
            (λ retry. (address : Address) × (retry.target ≡ Some address)
            × IsRouteNode strategy.entry (λ s. picks s.now) map.now pick route address)) }
        ensures fallback { IfOk result
            (λ made. IfSome made (λ retry. IsFallback map.now route retry.fallback)) }
        ensures left { IfOk result (λ made. IfSome made (λ retry. retry.left ≡ retries)) }
    {
        let Some(node) = map.slot_addr_for_route(route, strategy, pick) else {
            return Ok(None);
        };
        Ok(Some(Retry::at(alloc, map, route, node, retries)?))
    }

    /// Begins at this node of the route.
    pub(super) fn at(
        alloc: Global,
        map: &SlotMap,
        route: Route,
        node: &NodeAddress,
        retries: usize,
    ) -> Result<Self, AllocError>
        ensures begun { IfOk result (λ retry. IsRetryOf map.now retries (route, node.now) retry) }
    {
        let target = Some(node.clone()?);
        let mut fallback = map.shard_fallback_addrs(alloc, route)?;
        fallback.reverse();
        Ok(Retry {
            target,
            fallback,
            left: retries,
        })
    }

    /// The address to send to; `None` for good once this has ended.
    pub fn target(&self) -> Option<&NodeAddress>
        ensures target { option_map (λ address. address.now) result ≡ self.now.target }
        ensures ended { IsNone result → HasEnded self.now }
    {
        self.target.as_ref()
    }

    /// How many further targets may be named: 0 once this has ended.
    pub fn left(&self) -> usize
        ensures { result ≡ self.now.left }
    {
        self.left
    }

    /// The node at the target redirected. The address that it names is the next target. The
    /// addresses to fall back on stay for refusals. After an `Ask`, `ASKING` goes before the
    /// command.
    ///
    /// # Errors
    ///
    /// The redirect, if no retry is left. This has then ended.
    pub fn on_redirect(&mut self, redirect: Redirect) -> Result<(), Redirect>
        ensures named { OnOk result (FollowsRedirect self.old self.new redirect) }
        ensures ended { IfErr result
            (λ back. (back ≡ redirect) × (self.old.left ≡ 0) × HasEnded self.new) }
    {
        if self.left == 0 {
            self.target = None;
            return Err(redirect);
        }
        self.left -= 1;
        self.target = Some(redirect.into_address());
        Ok(())
    }

    /// The node at the target refused or can't be reached, and the command took no effect there.
    /// The next of the addresses to fall back on is the next target, and is used up. `false` if no
    /// retry or no address is left: this has then ended.
    pub fn on_failure(&mut self) -> bool
        ensures named { result ≡ true → FallsBack self.old self.new }
        ensures ended { result ≡ false → ((self.old.left ≡ 0) ⊎ (self.old.fallback ≡ []))
            × HasEnded self.new }
    {
        if self.left > 0 {
            if let Some(next) = self.fallback.pop() {
                self.left -= 1;
                self.target = Some(next);
                return true;
            }
        }
        self.left = 0;
        self.target = None;
        false
    }

    /// The node at the target answered `TRYAGAIN`: some keys of the command have moved to another
    /// node and others not, so nothing took effect. The next target is the same address. This
    /// counts as a retry, since a slot may stay between two nodes for long. How long to wait before
    /// the next send is the client's choice. `false` if no retry is left: this has then ended.
    /// `drive_retrying` never calls it.
    pub fn on_try_again(&mut self) -> bool
        ensures named { result ≡ true → AsksAgain self.old self.new }
        ensures ended { result ≡ false → (self.old.left ≡ 0) × HasEnded self.new }
    {
        if self.left == 0 {
            self.target = None;
            return false;
        }
        self.left -= 1;
        true
    }
}
