//! Limits that the types of a row's parts guarantee, stated as clauses. These functions change nothing: they
//! call methods whose contracts state the limits, and are called for their own clauses alone. So each body
//! drops what its calls return.

ghost use Rattle.std.specs.Prelude.{IsTrue};
ghost use Rattle.std.specs.List.{AllByRecursion};
ghost use Rattle.s2_cellid.specs.Cell.{IsCellId};
ghost use Rattle.volume4d.specs.Footprint.{shape_of, HasValidParts};
ghost use Rattle.desk_rules.specs.Limits.{is_operator_name};
ghost use Rattle.desk_store.specs.World.{IsId, IsValidVolume, IsPlan};

use desk_rules::operator::Operator;
use desk_rules::plan::PlanRow;
use desk_rules::plan_id::PlanId;
use s2_cellid::CellId;
use volume4d::{Footprint, Volume};

/// Proves that an operator has a valid name, by the contract of `as_str`.
pub(crate) fn name_is_valid(operator: &Operator)
    ensures { IsTrue (is_operator_name operator.now) }
{
    let _name = operator.as_str();
}

/// Proves that a row has an id of 16 bytes, and an area within the limits of `volume4d`.
pub(crate) fn row_is_valid(row: &PlanRow)
    ensures { IsPlan row.now }
{
    id_is_valid(&row.id);
    volumes_are_valid(row.area.volumes());
}

// Proves that an id has 16 bytes, by the contract of `encode`.
fn id_is_valid(id: &PlanId)
    ensures { IsId id.now }
{
    let mut buffer = [0u8; 36];
    let _text = id.encode(&mut buffer);
}

// Proves that each volume is within the limits of `volume4d`.
fn volumes_are_valid(volumes: &[Volume])
    ensures { AllByRecursion IsValidVolume volumes.now }
{
    for volume in volumes {
        volume_is_valid(volume);
    }
}

// Proves that a volume is within the limits of `volume4d`, by the contracts of its window and of its
// footprint.
fn volume_is_valid(volume: &Volume)
    ensures { IsValidVolume volume.now }
{
    let _window = volume.window();
    footprint_is_valid(volume.footprint());
}

// Proves that the cells of a footprint have valid ids, or that its rectangle is valid, by the contract of
// `level`.
fn footprint_is_valid(footprint: &Footprint)
    ensures { HasValidParts (shape_of footprint.now) }
{
    match footprint {
        Footprint::Cells(cells) => cells_are_valid(cells),
        Footprint::Rectangle(rect) => {
            let _level = rect.level();
        }
    }
}

// Proves that each cell has a valid id, by the contract of `raw`.
fn cells_are_valid(cells: &[CellId])
    ensures { AllByRecursion IsCellId cells.now }
{
    for cell in cells {
        let _id = cell.raw();
    }
}
