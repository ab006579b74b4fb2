//! What is drawn for a listing.
ghost use Rattle.std.specs.Prelude.{◌≡◌};
ghost use Rattle.sql_tree.specs.Listings.{asked_for};

use crate::options::Listing;
use sql_report::Asked;

/// What is drawn of a parse for a listing.
pub fn asked(listing: Listing) -> Asked
    ensures { result ≡ asked_for listing }
{
    match listing {
        Listing::Tree => Asked::Tree,
        Listing::Json => Asked::Json,
        Listing::Statements | Listing::Tokens | Listing::Quiet => Asked::Nothing,
    }
}
