// What vectors of the plane and of space have in common, and what follows from it for both.
ghost use Rattle.std.specs.Prelude.{◌≡◌, Bool, Float};
ghost use Rattle.geometry.specs.Point.{sub2, scale2, norm2, distance2, distance2_is, point2_on_map, sub3, scale3, norm3, distance3, distance3_is, point_on_map};

use crate::{Point2, Point3, double};

pub trait Vector: Copy {
    ghost difference: { Self → Self → Self };

    ghost scaled: { Self → Float → Self };

    ghost norm_of: { Self → Float };

    ghost distance_of: { Self → Self → Float };

    ghost is_on_map: { Self → Bool };

    fn sub(self, b: Self) -> Self
        ensures { result ≡ difference self b };

    fn scale(self, t: f64) -> Self
        ensures { result ≡ scaled self t };

    fn norm(self) -> f64
        ensures { result ≡ norm_of self };

    // Each coordinate is finite and at most 2 ^ 26 in size.
    fn on_map(self) -> bool
        ensures { result ≡ is_on_map self };

    ghost apart: { (a b : Self) → norm_of (difference a b) ≡ distance_of a b };
}

pub fn distance<V: Vector>(a: V, b: V) -> f64
    ensures { result ≡ V.distance_of a b }
{
    a.sub(b).norm()
}

impl Vector for Point2 {
    ghost difference = { sub2 };

    ghost scaled = { scale2 };

    ghost norm_of = { norm2 };

    ghost distance_of = { distance2 };

    ghost is_on_map = { point2_on_map };

    ghost apart = { distance2_is };

    #[tactic(auto, unfolding(crate::specs::Point::sub2))]
    fn sub(self, b: Point2) -> Point2 {
        Point2 {
            x: self.x - b.x,
            y: self.y - b.y,
        }
    }

    #[tactic(auto, unfolding(crate::specs::Point::scale2))]
    fn scale(self, t: f64) -> Point2 {
        Point2 {
            x: self.x * t,
            y: self.y * t,
        }
    }

    #[tactic(auto, unfolding(crate::specs::Point::norm2))]
    fn norm(self) -> f64 {
        root::square_root(self.x * self.x + self.y * self.y)
    }

    #[tactic(auto, unfolding(crate::specs::Point::point2_on_map))]
    fn on_map(self) -> bool {
        double::on_map(self.x) && double::on_map(self.y)
    }
}

impl Vector for Point3 {
    ghost difference = { sub3 };

    ghost scaled = { scale3 };

    ghost norm_of = { norm3 };

    ghost distance_of = { distance3 };

    ghost is_on_map = { point_on_map };

    ghost apart = { distance3_is };

    #[tactic(auto, unfolding(crate::specs::Point::sub3))]
    fn sub(self, b: Point3) -> Point3 {
        Point3 {
            x: self.x - b.x,
            y: self.y - b.y,
            z: self.z - b.z,
        }
    }

    #[tactic(auto, unfolding(crate::specs::Point::scale3))]
    fn scale(self, t: f64) -> Point3 {
        Point3 {
            x: self.x * t,
            y: self.y * t,
            z: self.z * t,
        }
    }

    #[tactic(auto, unfolding(crate::specs::Point::norm3))]
    fn norm(self) -> f64 {
        root::square_root(self.x * self.x + self.y * self.y + self.z * self.z)
    }

    #[tactic(auto, unfolding(crate::specs::Point::point_on_map))]
    fn on_map(self) -> bool {
        double::on_map(self.x) && double::on_map(self.y) && double::on_map(self.z)
    }
}
