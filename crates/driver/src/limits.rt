ghost use Rattle.std.specs.Prelude.{◌≡◌};
ghost use Rattle.driver.specs.Judged as judged;

use doc_model::Limits;

/// The limits of a source's table.
pub const LIMITS: Limits = Limits {
    rows: 1_000_000,
    text: 33_554_432,
    names: 65_536,
};

/// `LIMITS`, with its values.
pub fn default_limits() -> Limits
    ensures { result ≡ judged.default_limits }
{
    LIMITS
}
