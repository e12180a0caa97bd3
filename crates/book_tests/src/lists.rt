// Securities and trades for an update.
use contribution::{Isin, Security, Side, Trade};

#[derive(Clone, Copy)]
pub(crate) struct Lists {
    pub(crate) securities: &'static [Security],
    pub(crate) trades: &'static [Trade],
}

const ISIN: Isin = Isin {
    bytes: *b"PL0000000001",
};

const OTHER: Isin = Isin {
    bytes: *b"PL0000000002",
};

pub(crate) const MALFORMED: Isin = Isin { bytes: [255; 12] };

pub(crate) const SHARE: Security = Security {
    isin: ISIN,
    price: 1_000,
    risk: 1_250,
    rate: 10_000,
};

const RISKY: Security = Security {
    risk: 10_000,
    ..SHARE
};

pub(crate) const BOUGHT: Trade = Trade {
    isin: ISIN,
    side: Side::Bought,
    quantity: 50_000,
    price: 1_040,
};

pub(crate) const SOLD: Trade = Trade {
    isin: ISIN,
    side: Side::Sold,
    quantity: 20_000,
    price: 990,
};

const LARGE: Trade = Trade {
    quantity: 100_000,
    price: 1_000,
    ..BOUGHT
};

pub(crate) const BAD_SECURITY: Security = Security {
    isin: MALFORMED,
    price: 0,
    ..SHARE
};

pub(crate) const BAD_TRADE: Trade = Trade {
    isin: MALFORMED,
    quantity: 0,
    ..BOUGHT
};

impl Lists {
    // no trades
    pub(crate) const IDLE: Lists = Lists {
        securities: &[SHARE],
        trades: &[],
    };

    // W is 5,950,000
    pub(crate) const RISING: Lists = Lists {
        trades: &[BOUGHT, SOLD],
        ..Lists::IDLE
    };

    // W is 1,100,000,000
    pub(crate) const HIGH: Lists = Lists {
        securities: &[RISKY],
        trades: &[LARGE; 11],
    };

    // from here on with something wrong about the second of two
    pub(crate) const MALFORMED_SECURITY: Lists = Lists {
        securities: &[SHARE, BAD_SECURITY],
        ..Lists::IDLE
    };

    pub(crate) const NO_PRICE: Lists = Lists {
        securities: &[SHARE, Security { price: 0, ..SHARE }],
        ..Lists::IDLE
    };

    pub(crate) const LISTED_TWICE: Lists = Lists {
        securities: &[SHARE, SHARE],
        ..Lists::IDLE
    };

    pub(crate) const MALFORMED_TRADE: Lists = Lists {
        trades: &[BOUGHT, BAD_TRADE],
        ..Lists::IDLE
    };

    pub(crate) const NO_QUANTITY: Lists = Lists {
        trades: &[
            BOUGHT,
            Trade {
                isin: OTHER,
                quantity: 0,
                ..BOUGHT
            },
        ],
        ..Lists::IDLE
    };

    pub(crate) const NOT_LISTED: Lists = Lists {
        trades: &[
            BOUGHT,
            Trade {
                isin: OTHER,
                price: 100_000_000,
                ..BOUGHT
            },
        ],
        ..Lists::IDLE
    };

    pub(crate) const TOO_LARGE: Lists = Lists {
        trades: &[
            LARGE,
            Trade {
                price: 1_001,
                ..LARGE
            },
        ],
        ..Lists::IDLE
    };
}
