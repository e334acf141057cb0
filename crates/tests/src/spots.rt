use space::Spot;

pub(crate) fn at(x: i32, y: i32, level: i32) -> Spot {
    Spot { x, y, level }
}
