// What the published document says of a list of updates, lexeme by lexeme: how brackets nest, which members an object has, and what each value is.
// Every defect is noted, and the least is kept: 27 where the text is no JSON, 28 where it is not what is published, 29 where it is over a capacity or nested
// past 16. The tables are those of request (vi) of document 02.
#![tactic(auto)]

pub mod bucket;
pub mod frames;
pub mod judge;
pub mod kind;
pub mod name;
pub mod nest;
pub mod refusal;
pub mod row;
pub mod seen;
pub mod spot;
pub mod state;
pub mod uuid;
pub mod value;
pub mod width;
pub mod word;
