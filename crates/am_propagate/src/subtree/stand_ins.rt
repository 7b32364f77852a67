//! Which peer groups stand among copies for those of their receivers.

ghost use Rattle.std.specs.Prelude.{◌≡◌, ◌+◌, ◌^◌, ◌<◌, option_map};
ghost use Rattle.std.specs.List.Sorted.{IsStrictlyIncreasing};
ghost use Rattle.std.specs.Option.{option_to_list};
ghost use Rattle.am_group.specs.{copy_row, rank};
ghost use Rattle.am_propagate.specs.Joining.{stand_of};
ghost use Rattle.am_propagate.specs.Added.{new_group, last_fresh, fresh_groups, fresh_count};

use am_names::{GroupId, GroupRow, MemberRow, Membership, MountId};

/// Which groups stand among copies for the receivers' groups.
#[derive(Drop)]
pub struct StandIns {
    /// The group of the mount at the place, for which the new mount's stands.
    pub own: GroupId,
    pub new: GroupId,
    /// The greatest number before the fresh groups of the copies.
    pub last: u64,
    /// The other groups that receivers are in, in rising order of number.
    pub groups: Vec<GroupId>,
}

/// How many of these groups, which rise, have lower numbers.
fn rank(group: GroupId, groups: &[GroupId]) -> usize
    requires { IsStrictlyIncreasing groups.now }
    ensures { result ≡ rank group groups.now }
{
    let number = group.0;
    match groups.binary_search_by_key(&number, |other| other.0) {
        Ok(at) => at,
        Err(at) => at,
    }
}

impl StandIns {
    /// For a mount with this source. The last group has had the number `last`.
    pub fn of(own: GroupId, groups: Vec<GroupId>, membership: &Membership, last: u64) -> StandIns
        requires { last + fresh_count membership.now < 2 ^ 64 }
        ensures own { result.own ≡ own }
        ensures new { result.new ≡ new_group membership.now last }
        ensures last { result.last ≡ last_fresh membership.now last }
        ensures groups { result.groups.items ≡ groups.items }
    {
        let (new, last) = match membership {
            Membership::InGroup(new) => (*new, last),
            Membership::SlaveOf(_) | Membership::Private | Membership::Unbindable => {
                (GroupId(last + 1), last + 1)
            }
        };
        StandIns {
            own,
            new,
            last,
            groups,
        }
    }

    pub fn stand_of(&self, group: GroupId) -> GroupId
        requires { IsStrictlyIncreasing self.now.groups.items }
        ensures { result ≡ stand_of self.now group }
    {
        if group == self.own {
            return self.new;
        }
        let rank = rank(group, self.groups.as_slice());
        GroupId(self.last.saturating_add(1).saturating_add(rank as u64))
    }

    /// The row of the copy of a mount, on a receiver with this row.
    pub fn copy_row(&self, mount: MountId, receiver: &MemberRow) -> MemberRow
        requires { IsStrictlyIncreasing self.now.groups.items }
        ensures { result ≡
            copy_row (stand_of self.now) mount receiver.now.group receiver.now.master }
    {
        let membership = match receiver.membership {
            Membership::InGroup(group) => Membership::InGroup(self.stand_of(group)),
            Membership::SlaveOf(master) => Membership::SlaveOf(self.stand_of(master)),
            Membership::Private | Membership::Unbindable => Membership::Private,
        };
        membership.row(mount)
    }

    pub fn stand_of_master(&self, master: Option<GroupId>) -> Option<GroupId>
        requires { IsStrictlyIncreasing self.now.groups.items }
        ensures { result ≡ option_map (stand_of self.now) master }
    {
        match master {
            Some(group) => Some(self.stand_of(group)),
            None => None,
        }
    }
}

/// The fresh group of a new mount, if it needs one, with its master.
pub fn fresh_group(membership: &Membership, group: GroupId) -> Option<GroupRow>
    ensures { option_to_list result ≡ fresh_groups membership.now group }
{
    let master = match membership {
        Membership::InGroup(_) => return None,
        Membership::SlaveOf(master) => Some(*master),
        Membership::Private | Membership::Unbindable => None,
    };
    Some(GroupRow { group, master })
}
