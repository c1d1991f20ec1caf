//! Cascades: the platforms of a problem by falling efficiency of an application.
ghost use Rattle.std.specs.Prelude.{◌≡◌, ◌≤◌, ◌+◌, List, ℕ, [], ◌∷◌, length, map, not, IfOk, OnOk};
ghost use Rattle.std.specs.List.{fold, insert, prefix_len, range_with_len};
ghost use Rattle.cb_measure.specs.Cascade.{put_platform, step_at, falling, cascade_of};
ghost use Rattle.cb_measure.specs.inner.Timing.{timed, slower};
ghost use Rattle.cb_measure.specs.declared.timed.Timed.{Timed};

use crate::mean::Mean;
use crate::rows::Rows;
use crate::step::Step;
use crate::steps::Steps;
use crate::timed::{Timed, is_slower};
use cb_paths::{Bytes, NoMemory};
use std::alloc::Global;

/// The place behind the platforms on which an application is no slower than on another one.
fn place_of(order: &[Timed], other: &Timed) -> usize
    ensures place { result ≡ prefix_len (λ first. not (slower first other.now)) order.now }
    ensures within { result ≤ length order.now }
{
    order
        .iter()
        .take_while(|first| !is_slower(first, other))
        .count()
}

/// Puts a platform behind those on which an application is no slower.
fn put(order: &mut Vec<Timed>, platform: Timed) -> Result<(), NoMemory>
    ensures put { OnOk result (order.new.items ≡ insert order.old.items (prefix_len (λ first. not (slower first platform)) order.old.items) platform) }
    ensures len { OnOk result (length order.new.items ≡ length order.old.items + 1) }
{
    let place = place_of(order.as_slice(), &platform);
    order.insert(place, platform)?;
    Ok(())
}

/// A platform with the figures of an application on it.
fn timed_on(
    alloc: Global,
    rows: &Rows,
    problem: &[u8],
    application: &[u8],
    platform: &Bytes,
) -> Result<Timed, NoMemory>
    ensures { IfOk result (λ t. t ≡ timed rows.now problem.now application.now platform.now) }
{
    let pace = rows.pace(problem, application, platform.as_slice());
    Ok(Timed {
        platform: platform.copy(alloc)?,
        best: pace.best,
        figure: pace.figure,
    })
}

/// Platforms by falling efficiency of an application.
fn falling_on(
    alloc: Global,
    rows: &Rows,
    platforms: &[Bytes],
    problem: &[u8],
    application: &[u8],
) -> Result<Vec<Timed>, NoMemory>
    ensures order { IfOk result (λ order. map (λ (t : Timed). t.platform) order.items ≡ fold (put_platform rows.now problem.now application.now) [] platforms.now) }
    ensures figures { IfOk result (λ order. order.items ≡ map (timed rows.now problem.now application.now) (fold (put_platform rows.now problem.now application.now) [] platforms.now)) }
    ensures few { IfOk result (λ order. length order.items ≤ length platforms.now) }
{
    let mut order = Vec::new(alloc);
    'platforms: for platform in platforms {
        put(
            &mut order,
            timed_on(alloc, rows, problem, application, platform)?,
        )?;
    }
    Ok(order)
}

/// The steps of a cascade over platforms in their order, with their figures.
fn steps_on(
    alloc: Global,
    rows: &Rows,
    order: &[Timed],
    problem: &[u8],
    application: &[u8],
) -> Result<Steps, NoMemory>
    requires few { length order.now ≤ 100000 }
    requires figures { order.now ≡ map (timed rows.now problem.now application.now) (map (λ (t : Timed). t.platform) order.now) }
    ensures { IfOk result (λ steps. steps ≡ map (step_at rows.now problem.now application.now (map (λ (t : Timed). t.platform) order.now)) (range_with_len 0 (length order.now))) }
{
    let mut steps = Steps::new(alloc);
    let mut mean = Mean::none();
    'order: for item in order {
        let pace = rows.pace_of(problem, application, item);
        mean = mean.with(pace);
        let step = Step {
            platform: item.platform.copy(alloc)?,
            efficiency: pace.efficiency().unwrap_or(0),
            portability: mean.value(),
        };
        steps.push(step)?;
    }
    Ok(steps)
}

impl Rows {
    /// The cascade of an application for a problem: the platforms with a row of the problem by falling exact
    /// efficiency, those on which the application fails last, and platforms of one efficiency by their names. Each
    /// step has the portability over its platform and those of the steps before it.
    #[tactic(auto, unfolding(crate::specs::Cascade::cascade_of, crate::specs::Cascade::falling))]
    pub fn cascade(
        &self,
        alloc: Global,
        problem: &[u8],
        application: &[u8],
    ) -> Result<Steps, NoMemory>
        ensures { IfOk result (λ steps. steps ≡ cascade_of self.now problem.now application.now) }
    {
        let platforms = self.platform_names(alloc, problem)?;
        let order = falling_on(alloc, self, platforms.as_slice(), problem, application)?;
        steps_on(alloc, self, order.as_slice(), problem, application)
    }
}
