ghost use Rattle.std.specs.Prelude.{◌≡◌, ◌↔◌, ◌<◌, ◌≤◌, length, slice_index, IfSome, IsNone, IsTrue};
ghost use Rattle.te_forms.specs.Rings.{IsRing, IsOnRing, most_roles, role_before};
ghost use Rattle.te_forms.specs.Reading.{role_on, last_channel};

use std::marker::Model;

/// Most roles of a ring.
const MOST_ROLES: usize = 64;

/// A ring: 2 to 64 different channels, each below 256, seen as the list of them. The role of a party is a place in it,
/// from 0: it sends on its own channel and receives on that of the role before, role 0 on the last. This project's own.
#[derive(Drop)]
pub struct Ring {
    channels: [u8; MOST_ROLES],
    len: u32,
}

impl Model for Ring {
    ghost use Rattle.std.specs.Prelude.{ℕ, List, take};
    ghost use Rattle.te_forms.specs.Keeping.{PlacesAreKept};

    ghost Value = { List ℕ };

    ghost view = { λ r. take r.len r.channels };

    ghost invariant = { λ r. PlacesAreKept r.len r.channels };
}

fn is_among(channels: &[u32], channel: u32) -> bool
    ensures { IsTrue result ↔ IsOnRing channels.now channel }
{
    for c in channels {
        if *c == channel {
            return true;
        }
    }
    false
}

impl Ring {
    /// The ring of these channels, the first of which is that of role 0. `None` exactly where there are fewer than 2 or
    /// more than 64, one is 256 or above, or one stands there twice. It takes no memory.
    pub fn of(channels: &[u32]) -> Option<Ring>
        ensures some { IfSome result (λ ring. ring ≡ channels.now) }
        ensures none { IsNone result ↔ ¬ IsRing channels.now }
    {
        if channels.len() < 2 || channels.len() > MOST_ROLES {
            return None;
        }
        let mut kept = [0; MOST_ROLES];
        for i in 0..channels.len() {
            let channel = channels[i];
            if channel >= 256 || is_among(&channels[..i], channel) {
                return None;
            }
            kept[i] = channel as u8;
        }
        Some(Ring {
            channels: kept,
            len: channels.len() as u32,
        })
    }

    /// The number of roles, 2 to 64. It takes no memory.
    pub fn len(&self) -> u32
        ensures value { result ≡ length self.now }
        ensures ring { IsRing self.now }
    {
        self.len
    }

    /// The channel on which a role sends.
    pub(crate) fn channel(&self, role: u32) -> u32
        requires { role < length self.now }
        ensures { result ≡ slice_index self.now role }
    {
        self.channels[role as usize] as u32
    }

    /// The channel on which role 0 sends.
    pub(crate) fn first(&self) -> u32
        ensures { result ≡ slice_index self.now 0 }
    {
        // Every ring has a first channel.
        let _ = self.len();
        self.channel(0)
    }

    /// The channel on which role 0 receives.
    pub(crate) fn last(&self) -> u32
        ensures { result ≡ last_channel self.now }
    {
        self.channel(self.len - 1)
    }

    /// The channel on which a role receives.
    pub(crate) fn channel_before(&self, role: u32) -> u32
        requires { role < length self.now }
        ensures { result ≡ slice_index self.now (role_before (length self.now) role) }
    {
        if role == 0 {
            self.last()
        } else {
            self.channel(role - 1)
        }
    }

    /// The role that sends on the channel; `None` where it is none of the ring.
    pub(crate) fn role_on(&self, channel: u32) -> Option<u32>
        ensures value { result ≡ role_on self.now channel }
        ensures within { IfSome result (λ role. role < length self.now) }
    {
        for role in 0..self.len {
            if self.channel(role) == channel {
                return Some(role);
            }
        }
        None
    }
}
