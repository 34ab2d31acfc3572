// Translated from hfcast-engine (commit bf34e8f9f3), src/voacap/modes.rs lines 912 to 933 and 1029 to 1037, and changed.
ghost use Rattle.std.specs.Prelude.{◌≡◌, ◌≤◌};
ghost use Rattle.fdist.specs.Fdist.{rows_of, empty_of, found_by, none_of, run_of};

use crate::pairs::{next_pair, try_pair};
use crate::rays::ray_given;
use crate::{Found, HopModes, NO_LAYER};
use findf::Reflectrix;

// Six empty slots.
fn empty() -> HopModes
    ensures { result ≡ empty_of }
{
    HopModes {
        delmod: [0.0; 6],
        hpmod: [-1.0; 6],
        htmod: [0.0; 6],
        fvmod: [0.0; 6],
        itmod: [NO_LAYER; 6],
        afmod: [0.0; 6],
    }
}

fn found(pairs: u32, rays: usize, m: HopModes) -> Found
    requires { rays ≤ 6 }
    ensures { found_by result.pairs result.rays result.m ≡ found_by pairs rays m }
{
    Found {
        pairs,
        rays: rays as u32,
        m,
    }
}

// No pair tried.
pub(crate) fn none() -> Found
    ensures { found_by result.pairs result.rays result.m ≡ none_of }
{
    found(0, 0, empty())
}

// The pairs upward, a pair a turn, and each ray into the open slot.
pub(crate) fn search(rfx: &Reflectrix, d: f32, amind: f32, freq: f32) -> Found
    ensures { found_by result.pairs result.rays result.m ≡ run_of (rows_of rfx.now) d amind freq }
{
    let mut m = empty();
    let mut at: usize = 0;
    let mut pairs: u32 = 0;
    let mut rays: usize = 0;
    // No range: a pair that gives its second row jumps the pair that begins with it.
    while at < 44 {
        if rfx.hpflx[at + 1] <= 0.0 {
            return found(pairs, rays, m);
        }
        let pair = try_pair(at, rfx.gdflx[at], rfx.gdflx[at + 1], d);
        let ray = ray_given(rfx, d, freq, at, pair);
        at = next_pair(at, pair);
        pairs += 1;
        if let Some(ray) = ray {
            m.delmod[rays] = ray.del;
            m.htmod[rays] = ray.ht;
            m.fvmod[rays] = ray.fv;
            m.itmod[rays] = ray.layer;
            m.afmod[rays] = ray.af;
            if ray.del >= amind {
                m.hpmod[rays] = ray.hp;
                rays += 1;
                if rays >= 6 {
                    return found(pairs, rays, m);
                }
            } else {
                m.hpmod[rays] = -arith::abs(ray.hp);
            }
        }
    }
    found(pairs, rays, m)
}
