//! The cells of a plan's rows.
ghost use Rattle.std.specs.Prelude.{◌≡◌};
ghost use Rattle.reports.specs.Fields.{shown};
ghost use Rattle.plan_report.specs.Lines.{state_word, shown_conversion, driver_name};
ghost use Rattle.plan_report.specs.Rows.{ends_shown, encoding_shown, need_shown, driver_shown};

use checkout_core::Start;
use checkout_report::cause_of;
use convert_plan::Conversion;
use eol_convert::{Action, LineEnds};
use reports::CellValue;
use settings_view::Driver;
use tree_encoding::Encoding;

pub fn state_word(start: Start) -> &'static str
    ensures { result.now ≡ state_word start }
{
    match start {
        Start::Done(verdict) => cause_of(verdict),
        Start::Pool | Start::Desk { .. } => "card",
    }
}

/// What is shown of a path's conversion: one that the plan closes isn't converted.
pub fn shown_conversion(start: Start, conversion: Conversion) -> Conversion
    ensures { result ≡ shown_conversion start conversion }
{
    match start {
        Start::Done(_) => Conversion {
            ident: false,
            action: Action::Binary,
            encoding: None,
        },
        Start::Pool | Start::Desk { .. } => conversion,
    }
}

pub fn ends_value(ends: LineEnds) -> CellValue<'static>
    ensures { shown result ≡ ends_shown ends }
{
    match ends {
        LineEnds::Keep => CellValue::Absent,
        LineEnds::ToCrlf => CellValue::Word("crlf"),
        LineEnds::AutoCrlf => CellValue::Word("auto-crlf"),
    }
}

pub fn encoding_value(encoding: Option<Encoding>) -> CellValue<'static>
    ensures { shown result ≡ encoding_shown encoding }
{
    match encoding {
        Some(encoding) => CellValue::Word(encoding.name()),
        None => CellValue::Absent,
    }
}

pub fn need_value(start: Start) -> CellValue<'static>
    ensures { shown result ≡ need_shown start }
{
    match start {
        Start::Desk { required: true, .. } => CellValue::Word("required"),
        Start::Desk {
            required: false,
            ..
        } => CellValue::Word("optional"),
        Start::Pool | Start::Done(_) => CellValue::Absent,
    }
}

/// The name of the driver at this place.
fn driver_name(drivers: &[Driver], place: u32) -> &[u8]
    ensures { result.now ≡ driver_name drivers.now place }
{
    match drivers.get(place as usize) {
        Some(driver) => driver.name.as_slice(),
        None => &[],
    }
}

/// The name of the path's driver, if it has one.
pub fn driver_value(drivers: &[Driver], start: Start) -> CellValue<'_>
    ensures { shown result ≡ driver_shown drivers.now start }
{
    match start {
        Start::Desk { driver, .. } => CellValue::Name(driver_name(drivers, driver)),
        Start::Pool | Start::Done(_) => CellValue::Absent,
    }
}
