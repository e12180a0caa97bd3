// The securities of the day and the trades of a member, as they are handed in: any number may be out of its range.
ghost use Rattle.std.specs.Prelude.{◌≡◌};
ghost use Rattle.contribution.specs.Sides.{side_of};

// The twelve bytes of an ISIN.
#[derive(Clone, Copy, PartialEq, Eq)]
pub struct Isin {
    pub bytes: [u8; 12],
}

// Prices are in hundredths of the quoted currency, the risk in hundredths of a percent, the rate in ten-thousandths of a złoty for one unit of the currency.
#[derive(Clone, Copy)]
pub struct Security {
    pub isin: Isin,
    pub price: u64,
    pub risk: u64,
    pub rate: u64,
}

#[derive(Clone, Copy, PartialEq, Eq, Debug)]
pub enum Side {
    Bought,
    Sold,
}

// A byte that stands for no side.
#[derive(Clone, Copy, PartialEq, Eq, Debug)]
pub struct UnknownSide(pub u8);

// K is bought, S is sold.
impl TryFrom<u8> for Side {
    type Error = UnknownSide;

    ghost try_from_gives = { λ letter read. read ≡ side_of letter };

    fn try_from(letter: u8) -> Result<Side, UnknownSide> {
        match letter {
            b'K' => Ok(Side::Bought),
            b'S' => Ok(Side::Sold),
            _ => Err(UnknownSide(letter)),
        }
    }
}

#[derive(Clone, Copy)]
pub struct Trade {
    pub isin: Isin,
    pub side: Side,
    pub quantity: u64,
    pub price: u64,
}
