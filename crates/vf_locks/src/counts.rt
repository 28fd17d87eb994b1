ghost use Rattle.std.specs.Prelude.{◌≡◌, ◌-◌, ◌<◌, ◌^◌, All};
ghost use Rattle.vf_locks.specs.Place.{lowered, lowered_row, raised, raised_row};
ghost use Rattle.vf_locks.specs.Shown.{row_shows, shows};

use vf_base::{Control, Controls};

/// How many holders of a file have each control on each action: `numbers[action][control]`, by the numbers of the two.
#[derive(Clone, Copy)]
pub struct HeldCounts {
    pub numbers: [[u64; 4]; 8],
}

impl HeldCounts {
    /// One holder more has the controls.
    #[tactic(auto, unfolding(crate::specs::Place::raised))]
    pub fn add(&mut self, controls: &Controls)
        requires { All (All (λ number. number < 2 ^ 64 - 1)) self.old.numbers }
        ensures { self.new.numbers ≡ raised controls.now.each self.old.numbers }
    {
        raise(&mut self.numbers[0], controls.each[0]);
        raise(&mut self.numbers[1], controls.each[1]);
        raise(&mut self.numbers[2], controls.each[2]);
        raise(&mut self.numbers[3], controls.each[3]);
        raise(&mut self.numbers[4], controls.each[4]);
        raise(&mut self.numbers[5], controls.each[5]);
        raise(&mut self.numbers[6], controls.each[6]);
        raise(&mut self.numbers[7], controls.each[7]);
    }

    /// One holder less has the controls.
    #[tactic(auto, unfolding(crate::specs::Place::lowered))]
    pub fn take(&mut self, controls: &Controls)
        ensures { self.new.numbers ≡ lowered controls.now.each self.old.numbers }
    {
        lower(&mut self.numbers[0], controls.each[0]);
        lower(&mut self.numbers[1], controls.each[1]);
        lower(&mut self.numbers[2], controls.each[2]);
        lower(&mut self.numbers[3], controls.each[3]);
        lower(&mut self.numbers[4], controls.each[4]);
        lower(&mut self.numbers[5], controls.each[5]);
        lower(&mut self.numbers[6], controls.each[6]);
        lower(&mut self.numbers[7], controls.each[7]);
    }
}

fn raise(row: &mut [u64; 4], control: Control)
    requires { All (λ number. number < 2 ^ 64 - 1) row.old }
    ensures { row.new ≡ raised_row control row.old }
{
    match control {
        Control::NotRequired => row[0] += 1,
        Control::Shared => row[1] += 1,
        Control::Exclusive => row[2] += 1,
        Control::NoAccess => row[3] += 1,
    }
}

fn lower(row: &mut [u64; 4], control: Control)
    ensures { row.new ≡ lowered_row control row.old }
{
    match control {
        Control::NotRequired => row[0] = row[0].saturating_sub(1),
        Control::Shared => row[1] = row[1].saturating_sub(1),
        Control::Exclusive => row[2] = row[2].saturating_sub(1),
        Control::NoAccess => row[3] = row[3].saturating_sub(1),
    }
}

/// Whether some holder has a control that clashes with one that is wanted, going by the numbers alone.
pub fn show_clash(numbers: &[[u64; 4]; 8], wanted: &Controls) -> bool
    ensures { result ≡ shows numbers.now wanted.now.each }
{
    let mut pairs = numbers.iter().zip(wanted.each.iter());
    pairs.any(|(row, control)| row_shows_clash(row, *control))
}

fn row_shows_clash(row: &[u64; 4], wanted: Control) -> bool
    ensures { result ≡ row_shows row.now wanted }
{
    let [_, shared, exclusive, no_access] = *row;
    match wanted {
        Control::NotRequired => false,
        Control::Shared => exclusive > 0 || no_access > 0,
        Control::Exclusive => shared > 0 || exclusive > 0 || no_access > 0,
        Control::NoAccess => shared > 0 || exclusive > 0,
    }
}
