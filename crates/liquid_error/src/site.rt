//! Where an error is: the place that reading found, or the node that failed, and the partials around it.
ghost use Rattle.std.specs.Prelude.{◌≡◌, None, Some, IfOk, map, string_bytes};
ghost use Rattle.std.specs.Option.{option_or};
ghost use Rattle.liquid_error.specs.declared.site.Spot.TheVariants as spot;
ghost use Rattle.liquid_error.specs.meaning.Sites.{at_node, here_of, place_of, site_of, sites_of, sites_within};

use crate::place::Place;
use std::alloc::{AllocError, Global};

/// A position in a text.
#[derive(Clone, Copy, Debug, PartialEq, Eq)]
pub enum Spot {
    /// This line and column, where reading found the error.
    Place(Place),
    /// Where this many bytes are left of the text: the node that failed begins there.
    Left(u32),
}

/// A position in the text of a partial.
#[derive(Debug, Drop)]
pub struct Site {
    pub(crate) partial: String,
    pub(crate) spot: Spot,
}

/// Where an error is. It takes no more memory than a place, so that a result without an error is no larger for it.
#[derive(Debug, Drop)]
pub(crate) enum Location {
    /// Nothing is known.
    Unknown,
    /// Reading found it at this place of the text at hand.
    At(Place),
    /// It is in the node of the text at hand where this many bytes are left.
    Node(u32),
    /// It is in the text of a partial.
    Through(Box<Trail>),
}

/// Where an error in a partial is.
#[derive(Debug, Drop)]
pub(crate) struct Trail {
    /// The place that reading found, in the innermost text.
    pub(crate) place: Option<Place>,
    /// The position in the text at hand.
    pub(crate) here: Option<Spot>,
    /// The partials around the error, the innermost first.
    pub(crate) sites: Vec<Site>,
}

impl Site {
    /// Returns the name of the partial.
    pub fn partial(&self) -> &str
        ensures { result.now ≡ (site_of self.now).partial }
    {
        self.partial.as_str()
    }

    /// Returns the position in the partial's text.
    pub fn spot(&self) -> Spot
        ensures { result ≡ (site_of self.now).spot }
    {
        self.spot
    }
}

impl Location {
    /// Sets the place that reading found, if there is none.
    pub(crate) fn or_place(self, place: Place) -> Location
        ensures place { place_of result ≡ option_or (place_of self) (Some place) }
        ensures sites { sites_of result ≡ sites_of self }
    {
        match self {
            Location::Through(mut trail) => {
                if trail.place.is_none() {
                    trail.place = Some(place);
                }
                Location::Through(trail)
            }
            Location::At(own) => Location::At(own),
            _ => Location::At(place),
        }
    }

    /// Returns the place that reading found.
    pub(crate) fn place(&self) -> Option<Place>
        ensures { result ≡ place_of self.now }
    {
        match self {
            Location::At(place) => Some(*place),
            Location::Through(trail) => trail.place,
            _ => None,
        }
    }

    /// Sets the node of the text at hand, if no position in that text is known.
    pub(crate) fn at_node(self, left: u32) -> Location
        ensures place { place_of result ≡ place_of self }
        ensures here { here_of result ≡ at_node left (here_of self) }
        ensures sites { sites_of result ≡ sites_of self }
    {
        match self {
            Location::Unknown => Location::Node(left),
            Location::Through(mut trail) => {
                if trail.here.is_none() {
                    trail.here = Some(Spot::Left(left));
                }
                Location::Through(trail)
            }
            known => known,
        }
    }

    /// Returns the position in the text at hand.
    pub(crate) fn here(&self) -> Option<Spot>
        ensures { result ≡ here_of self.now }
    {
        match self {
            Location::Unknown => None,
            Location::At(place) => Some(Spot::Place(*place)),
            Location::Node(left) => Some(Spot::Left(*left)),
            Location::Through(trail) => trail.here,
        }
    }

    /// Returns the partials around the error, the innermost first.
    pub(crate) fn sites(&self) -> &[Site]
        ensures { map site_of result.now ≡ sites_of self.now }
    {
        match self {
            Location::Through(trail) => trail.sites.as_slice(),
            _ => &[],
        }
    }

    /// Returns the location seen from the text that renders this partial.
    pub(crate) fn within(self, alloc: Global, partial: &str) -> Result<Location, AllocError>
        ensures place { IfOk result (λ l. place_of l ≡ place_of self) }
        ensures here { IfOk result (λ l. here_of l ≡ None) }
        ensures sites { IfOk result (λ l. sites_of l ≡ sites_within partial.now (here_of self) (sites_of self)) }
    {
        match self {
            Location::Unknown => Ok(Location::Unknown),
            Location::At(place) => {
                Location::in_partial(alloc, Some(place), partial, Spot::Place(place))
            }
            Location::Node(left) => Location::in_partial(alloc, None, partial, Spot::Left(left)),
            Location::Through(mut trail) => {
                if let Some(spot) = trail.here {
                    let partial = String::from_str(alloc, partial)?;
                    trail.sites.push(Site { partial, spot })?;
                    trail.here = None;
                }
                Ok(Location::Through(trail))
            }
        }
    }

    /// Returns the location at this position of a partial.
    fn in_partial(
        alloc: Global,
        place: Option<Place>,
        partial: &str,
        spot: Spot,
    ) -> Result<Location, AllocError>
        ensures place { IfOk result (λ l. place_of l ≡ place) }
        ensures here { IfOk result (λ l. here_of l ≡ None) }
        ensures sites { IfOk result (λ l. sites_of l ≡ sites_within partial.now (Some spot) Rattle.std.specs.Prelude.[]) }
    {
        let partial = String::from_str(alloc, partial)?;
        let mut sites = Vec::new(alloc);
        sites.push(Site { partial, spot })?;
        let trail = Trail {
            place,
            here: None,
            sites,
        };
        Ok(Location::Through(Box::new(alloc, trail)?))
    }
}

impl Clone for Site {
    ghost is_clone = { λ s copy. site_of copy ≡ site_of s };

    fn clone(&self) -> Result<Site, AllocError> {
        Ok(Site {
            partial: self.partial.clone()?,
            spot: self.spot,
        })
    }
}

impl Clone for Trail {
    ghost is_clone = { λ t copy. (copy.place ≡ t.place) × (copy.here ≡ t.here)
        × (map site_of copy.sites.items ≡ map site_of t.sites.items) };

    fn clone(&self) -> Result<Trail, AllocError> {
        let sites = self.sites.clone()?;
        Ok(Trail {
            place: self.place,
            here: self.here,
            sites,
        })
    }
}

impl Clone for Location {
    ghost is_clone = { λ l copy. (place_of copy ≡ place_of l) × (here_of copy ≡ here_of l) × (sites_of copy ≡ sites_of l) };

    fn clone(&self) -> Result<Location, AllocError> {
        match self {
            Location::Unknown => Ok(Location::Unknown),
            Location::At(place) => Ok(Location::At(*place)),
            Location::Node(left) => Ok(Location::Node(*left)),
            Location::Through(trail) => {
                let alloc = *Box::allocator(trail);
                let trail = Trail::clone(trail)?;
                Ok(Location::Through(Box::new(alloc, trail)?))
            }
        }
    }
}
